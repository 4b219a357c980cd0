// The draft: a fresh one, posting to it, and its sheet.
ghost use Rattle.std.specs.Prelude.{◌≡◌, ◌*◌, ◌≤◌, length};
ghost use Rattle.texts.specs.Working.Writing.{put_at};
ghost use Rattle.sheets.specs.Sheet.{text_max};
ghost use Rattle.drafts.specs.Draft.{slot_size, slot_in, slot_revision, slot_cell, slot_text, draft_formed, slot_comparison, slot_bytes};
ghost use Rattle.drafts.specs.Working.Steps.{length_in, head_fits, text_put, sheet_into};
ghost use Rattle.drafts.specs.Promises.{Freshens, Posts, Copies};

use crate::message::{REVISION_SIZE, message_text, read};
use crate::revision::{Party, Revision, Standing, revision_number};
use sheets::sheet::{CELL_SIZE, SHEET_SIZE, SLOT_COUNT, TEXT_MAX, cell_text, cells_ok, slot_of};
use texts::answers::Refusal;
use texts::buffers::{clear, put};
use texts::comparisons::equals;
use texts::numbers::{bytes_of, number_of};
use texts::parts::{at, part};

// A slot is a revision, its party and a sheet's cell: where the cell begins, and the text in it.
const CELL_PLACE: usize = REVISION_SIZE + 1;

const TEXT_PLACE: usize = CELL_PLACE + 1;

// "31 bytes and a draft 465".
const SLOT_SIZE: usize = CELL_PLACE + CELL_SIZE;

pub const DRAFT_SIZE: usize = SLOT_COUNT as usize * SLOT_SIZE;

// Where the first slot's cell stands, and how far the next slot's is from it.
const FIRST_CELL: u8 = CELL_PLACE as u8;

const SLOT_STEP: u8 = SLOT_SIZE as u8;

// Slot i of a draft.
#[tactic(auto, unfolding(crate::specs::Draft::slot_in))]
fn slot_in(draft: &[u8], slot: u8) -> &[u8]
    ensures { result.now ≡ slot_in draft.now slot }
{
    let a = usize::from(slot) * SLOT_SIZE;
    part(draft, a, a + SLOT_SIZE)
}

// The revision that a slot holds, and its party.
#[tactic(auto, unfolding(crate::specs::Draft::slot_revision))]
fn slot_revision(slot: &[u8]) -> Revision
    ensures { result ≡ slot_revision slot.now }
{
    Revision {
        number: revision_number(slot),
        party: Party(at(slot, REVISION_SIZE)),
    }
}

// The revision that a slot of a draft holds, with its party, and its text; for a number that is no slot's, revision 0 of no
// party, and the blank text.
pub fn revision_in(draft: &[u8], slot: u8) -> Revision
    ensures { result ≡ slot_revision (slot_in draft.now slot) }
{
    slot_revision(slot_in(draft, slot))
}

#[tactic(auto, unfolding(crate::specs::Draft::slot_text))]
pub fn text_in(draft: &[u8], slot: u8) -> &[u8]
    ensures { result.now ≡ slot_text (slot_in draft.now slot) }
{
    cell_text(slot_cell(slot_in(draft, slot)))
}

// The length of a slot's text, as its byte says.
pub fn length_in(draft: &[u8], slot: u8) -> u8
    ensures { result ≡ length_in draft.now slot }
{
    at(draft, usize::from(slot) * SLOT_SIZE + CELL_PLACE)
}

// A slot without its revision, as a sheet has it.
#[tactic(auto, unfolding(crate::specs::Draft::slot_cell))]
fn slot_cell(slot: &[u8]) -> &[u8]
    ensures { result.now ≡ slot_cell slot.now }
{
    part(slot, CELL_PLACE, SLOT_SIZE)
}

// What stands before a slot's text fits it: a party "0 exactly if the revision is 0 and otherwise 1 or 2", and no text at revision 0.
#[tactic(auto, unfolding(crate::specs::Working::Steps::head_fits))]
fn fits(slot: &[u8]) -> bool
    ensures { result ≡ head_fits slot.now }
{
    let revision = slot_revision(slot);
    let none = (revision.party.0 == 0) & (at(slot, CELL_PLACE) == 0);
    let known = revision.party.known();
    if revision.number == 0 { none } else { known }
}

// "Malformed: another size, a length above 25, a nonzero pad byte; in a draft also revision 0 with a text", and a party that does not fit.
// No slot's answer ends the loop: which slots are given is hard to foretell. Completion begins by this, and has it compiled in.
#[inline(always)]
#[tactic(auto, using(crate::proofs::Slots::forms))]
pub fn well_formed(draft: &[u8]) -> bool
    ensures { result ≡ draft_formed draft.now }
{
    if draft.len() != DRAFT_SIZE {
        return false;
    }
    if !cells_ok(draft, FIRST_CELL, SLOT_STEP) {
        return false;
    }
    let mut fit = true;
    for slot in 0..SLOT_COUNT {
        fit &= fits(slot_in(draft, slot));
    }
    fit
}

// "Fresh: all zero".
pub fn fresh(draft: &mut [u8]) -> Result<(), Refusal>
    ensures { Freshens draft.old result draft.new }
{
    if draft.len() != DRAFT_SIZE {
        return Err(Refusal::Malformed);
    }
    clear(draft);
    Ok(())
}

// How a message of a revision and a text stands to a slot.
#[tactic(auto, unfolding(crate::specs::Draft::slot_comparison, crate::specs::Draft::slot_text))]
fn stands(slot: &[u8], revision: Revision, text: &[u8]) -> Result<Standing, Refusal>
    ensures { result ≡ slot_comparison slot.now revision text.now }
{
    let same_text = equals(cell_text(slot_cell(slot)), text);
    revision.against(slot_revision(slot), same_text)
}

// The bytes of a slot.
fn slot_bytes(revision: Revision, text: &[u8]) -> [u8; SLOT_SIZE]
    requires { length text.now ≤ text_max }
    ensures { result ≡ slot_bytes revision text.now }
{
    let mut slot = [0u8; SLOT_SIZE];
    put(&mut slot, 0, &bytes_of::<4>(u64::from(revision.number)));
    put(
        &mut slot,
        REVISION_SIZE,
        &[revision.party.0, text.len() as u8],
    );
    put(&mut slot, TEXT_PLACE, text);
    slot
}

// Stores a text in a slot of a draft, with a revision; one that is too long is not stored.
#[tactic(auto, unfolding(crate::specs::Working::Steps::text_put))]
pub fn put_text(draft: &mut [u8], slot: u8, revision: Revision, text: &[u8])
    ensures { draft.new ≡ text_put draft.old slot revision text.now }
{
    if text.len() <= TEXT_MAX {
        let bytes = slot_bytes(revision, text);
        put(draft, usize::from(slot) * SLOT_SIZE, &bytes);
    }
}

// Posts a message to a draft.
pub fn post(draft: &mut [u8], message: &[u8]) -> Result<Standing, Refusal>
    ensures { Posts draft.old message.now result draft.new }
{
    if !well_formed(draft) {
        return Err(Refusal::Malformed);
    }
    let heading = read(message)?;
    let slot = slot_of(heading.field);
    let text = message_text(message);
    let standing = stands(slot_in(draft, slot), heading.revision, text)?;
    if standing == Standing::Newer {
        put_text(draft, slot, heading.revision, text);
    }
    Ok(standing)
}

// Puts a draft's sheet into a buffer. Callers lend an array of their own, which the compiler knows not to overlap the draft, and have the loop
// compiled in: it is fifteen copies of a size that is known.
#[inline(always)]
#[tactic(auto, using(crate::proofs::DraftPromises::sheets))]
pub fn put_sheet(draft: &[u8], sheet: &mut [u8])
    ensures { sheet.new ≡ sheet_into draft.now sheet.old }
{
    if draft.len() != DRAFT_SIZE {
        return;
    }
    if sheet.len() != SHEET_SIZE {
        return;
    }
    for slot in 0..SLOT_COUNT {
        put(
            sheet,
            usize::from(slot) * CELL_SIZE,
            slot_cell(slot_in(draft, slot)),
        );
    }
}

// "Copying a draft to a sheet drops the revisions".
pub fn copy(draft: &[u8], sheet: &mut [u8]) -> Result<(), Refusal>
    ensures { Copies draft.now sheet.old result sheet.new }
{
    if !well_formed(draft) {
        return Err(Refusal::Malformed);
    }
    if sheet.len() != SHEET_SIZE {
        return Err(Refusal::WrongSize);
    }
    let mut cells = [0u8; SHEET_SIZE];
    put_sheet(draft, &mut cells);
    sheet.copy_from_slice(&cells);
    Ok(())
}
