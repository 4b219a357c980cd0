// Taking up part of a proposal (R-9): the values of some slots of a proposed sheet are posted to the draft.
ghost use Rattle.std.specs.Prelude.{◌≡◌, ◌<◌, ltb, length};
ghost use Rattle.sheets.specs.Sheet.{slot_count, text_of};
ghost use Rattle.sheets.specs.declared.dates.Dates.{Dates};
ghost use Rattle.drafts.specs.Draft.{slot_in, slot_revision};
ghost use Rattle.drafts.specs.History.{posted_from};
ghost use Rattle.drafts.specs.Working.Steps.{text_put};
ghost use Rattle.orders.specs.Fillings.{list_of};
ghost use Rattle.orders.specs.TakeUp.{in_set, greatest, fit, next, proposals, TakesUp};
ghost use Rattle.orders.specs.Working.Upto.{FirstUnfit, Postable};

use crate::entry::list_in;
use drafts::draft::{put_text, revision_in, text_in};
use drafts::revision::{ADVISER, Party, Revision};
use sheets::sheet::{Field, SHEET_SIZE, SLOT_COUNT, field_in, text};
use texts::answers::Refusal;

const GREATEST: u32 = 4294967295;

// The slots, and a place of the set that is no slot's.
const PLACES: u8 = SLOT_COUNT + 1;

// Why no value is posted: 20 with the field of a slot that can't take up its value; 1 or 7.
#[derive(Clone, Copy, Debug, PartialEq, Eq)]
pub enum Untaken {
    Unfit(Field),
    Refused(Refusal),
}

fn is_in_set(set: u16, slot: u8) -> bool
    requires { slot < 16 }
    ensures { result ≡ in_set set slot }
{
    (set >> slot) % 2 == 1
}

fn has_list(slot: u8) -> bool
    ensures { (D : Dates) → result ≡ ltb 0 (length (list_of D slot)) }
{
    list_in(slot).is_some()
}

fn is_fit(draft: &[u8], sheet: &[u8], slot: u8) -> bool
    ensures { (D : Dates) → result ≡ fit D draft.now sheet.now slot }
{
    (has_list(slot) & (text_in(draft, slot).len() == 0))
        & ((text(sheet, slot).len() != 0) & (revision_in(draft, slot).number < GREATEST))
}

// The first place of the set whose slot can't take up its value; none where each can.
fn first_unfit(draft: &[u8], sheet: &[u8], set: u16) -> Option<u8>
    ensures { (D : Dates) → FirstUnfit D draft.now sheet.now set result }
{
    for slot in 0..PLACES {
        if is_in_set(set, slot) & !is_fit(draft, sheet, slot) {
            return Some(slot);
        }
    }
    None
}

// Puts a slot's proposed text into it, as the adviser's, with the revision after the one that it has: that is what posting it comes to.
fn take(draft: &mut [u8], sheet: &[u8], slot: u8)
    requires { (slot_revision (slot_in draft.old slot)).number < greatest }
    ensures { draft.new ≡ text_put draft.old slot (next draft.old slot) (text_of sheet.now slot) }
{
    let had = revision_in(draft, slot);
    let revision = Revision {
        number: had.number + 1,
        party: Party(ADVISER),
    };
    put_text(draft, slot, revision, text(sheet, slot));
}

// Posts the values of a set's slots.
fn take_all(draft: &mut [u8], sheet: &[u8], set: u16)
    requires { Postable draft.old sheet.now set }
    ensures { draft.new ≡ posted_from draft.old (proposals draft.old sheet.now set slot_count) }
{
    for slot in 0..SLOT_COUNT {
        if is_in_set(set, slot) {
            take(draft, sheet, slot);
        }
    }
}

// The values are posted. All slots are tested before the first of them is.
pub fn take_up(draft: &mut [u8], sheet: &[u8], set: u16) -> Result<(), Untaken>
    ensures { (D : Dates) → TakesUp D draft.old sheet.now set result draft.new }
{
    if !drafts::draft::well_formed(draft) {
        return Err(Untaken::Refused(Refusal::Malformed));
    }
    if sheet.len() != SHEET_SIZE {
        return Err(Untaken::Refused(Refusal::WrongSize));
    }
    if !sheets::sheet::well_formed(sheet) {
        return Err(Untaken::Refused(Refusal::Malformed));
    }
    match first_unfit(draft, sheet, set) {
        Some(slot) => Err(Untaken::Unfit(field_in(slot))),
        None => {
            take_all(draft, sheet, set);
            Ok(())
        }
    }
}
