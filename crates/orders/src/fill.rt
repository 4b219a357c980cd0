// Writing entries into the blank fields of a sheet, and the set of the fields that are filled.
ghost use Rattle.std.specs.Prelude.{◌≡◌, cond, true, List, ◌∷◌, [], ℕ, ◌≤◌, eqb, length};
ghost use Rattle.sheets.specs.Sheet.{sheet_size};
ghost use Rattle.sheets.specs.Working.Entries.{filled_at};
ghost use Rattle.orders.specs.Working.Entering.{row_cell, base_of, picked_of};
ghost use Rattle.drafts.specs.Draft.{draft_formed, draft_sheet};
ghost use Rattle.drafts.specs.Working.Steps.{length_in};
ghost use Rattle.sheets.specs.declared.dates.Dates.{Dates};
ghost use Rattle.orders.specs.Fillings.{set_of};

use crate::entry::list_in;
use crate::search::Pick;
use drafts::draft::length_in;
use sheets::dates::Dates;
use sheets::entries::{basis_row, status_row, zero_row};
use sheets::sheet::{CELL_SIZE, SHEET_SIZE, SLOT_COUNT, text};
use texts::buffers::put;

fn row_cell(row: [u8; 3]) -> [u8; CELL_SIZE]
    ensures { result ≡ row_cell row }
{
    let mut cell = [0u8; CELL_SIZE];
    cell[0] = row[0];
    cell[1] = row[1];
    cell[2] = row[2];
    cell
}

// Puts an entry into a slot if that is blank.
fn fill_slot(sheet: &mut [u8], slot: u8, row: [u8; 3])
    ensures { sheet.new ≡ filled_at sheet.old slot (row_cell row) }
{
    if text(sheet, slot).len() == 0 {
        let cell = row_cell(row);
        put(sheet, usize::from(slot) * CELL_SIZE, &cell);
    }
}

// "0" into 22, 60, 102, 104, 105 and 107.
const ZERO_SLOTS: [u8; 6] = [3, 4, 7, 9, 10, 12];

pub(crate) fn fill_zeros(sheet: &mut [u8])
    ensures { sheet.new ≡ base_of sheet.old }
{
    let row = zero_row(0);
    for slot in ZERO_SLOTS {
        fill_slot(sheet, slot, row);
    }
}

// The picked entries into 101, 106, 108 and 109.
pub(crate) fn fill_picked(sheet: &mut [u8], pick: Pick, dates: Dates)
    ensures { sheet.new ≡ picked_of dates sheet.old (pick.status ∷ pick.basis ∷ pick.document ∷ pick.day ∷ []) }
{
    fill_slot(sheet, 6, status_row(dates, pick.status));
    fill_slot(sheet, 11, basis_row(pick.basis));
    fill_slot(sheet, 13, zero_row(pick.document));
    fill_slot(sheet, 14, zero_row(pick.day));
}

// What fill_picked leaves, where the set of the filled slots is known: where it is empty, nothing is filled and no list is looked into.
pub(crate) fn fill_found(sheet: &mut [u8; SHEET_SIZE], pick: Pick, dates: Dates, set: u16)
    ensures { (s : List ℕ) → length s ≡ sheet_size → set ≡ set_of dates s → sheet.old ≡ base_of s → sheet.new ≡ picked_of dates sheet.old (pick.status ∷ pick.basis ∷ pick.document ∷ pick.day ∷ []) }
{
    if set == 0 {
        return;
    }
    fill_picked(sheet, pick, dates);
}

// "A 16-bit set of the filled slots (bit i for slot i)": those that have a list and are blank, of a draft that is well formed.
pub(crate) fn filled_set(draft: &[u8]) -> u16
    ensures { (D : Dates) → draft_formed draft.now ≡ true → result ≡ set_of D (draft_sheet draft.now) }
{
    let mut set = 0;
    for slot in 0..SLOT_COUNT {
        if list_in(slot).is_some() && length_in(draft, slot) == 0 {
            set += 1 << slot;
        }
    }
    set
}
