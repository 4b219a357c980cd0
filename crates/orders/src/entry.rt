// An entry of a field's list in completion, by its place.
ghost use Rattle.std.specs.Prelude.{◌≡◌, [], get_or};
ghost use Rattle.texts.specs.Quoted.{words};
ghost use Rattle.sheets.specs.Working.Entries.{row_of};
ghost use Rattle.sheets.specs.declared.dates.Dates.{Dates};
ghost use Rattle.orders.specs.Fillings.{list_of};
ghost use Rattle.orders.specs.Working.Listing.{texts_by};
ghost use Rattle.orders.specs.Entry.{Lists};

use sheets::dates::{Dates, are_fit};
use sheets::entries::{basis_row, status_row, zero_row};
use sheets::sheet::{Field, SLOT_COUNT, slot_of};
use texts::answers::Refusal;

// The entry's length and its bytes; the second is 0 where there is none.
#[derive(Clone, Copy, Debug, PartialEq, Eq)]
pub struct Row {
    pub length: u8,
    pub first: u8,
    pub second: u8,
}

// The lists: "0", that of 108 and 109, that of 106, that of 101.
#[derive(Clone, Copy)]
pub(crate) enum Entries {
    Zero,
    Zeros,
    Bases,
    Statuses,
}

// By slot, which list its field has, if any.
const LISTS: [Option<Entries>; 15] = [
    None,
    None,
    None,
    Some(Entries::Zero),
    Some(Entries::Zero),
    None,
    Some(Entries::Statuses),
    Some(Entries::Zero),
    None,
    Some(Entries::Zero),
    Some(Entries::Zero),
    Some(Entries::Bases),
    Some(Entries::Zero),
    Some(Entries::Zeros),
    Some(Entries::Zeros),
];

pub(crate) fn list_in(slot: u8) -> Option<Entries>
    ensures { (D : Dates) → texts_by D result ≡ list_of D slot }
{
    let slot = usize::from(slot);
    if slot < LISTS.len() {
        LISTS[slot]
    } else {
        None
    }
}

// The list "0".
fn only_row(place: usize) -> [u8; 3]
    ensures { result ≡ row_of (get_or (words "0") place []) }
{
    if place == 0 {
        return [1, 48, 0];
    }
    [0, 0, 0]
}

// As a cell begins, the length and two bytes; the blank past the end, and where there is no list.
fn row_in(slot: u8, place: usize, dates: Dates) -> [u8; 3]
    ensures { result ≡ row_of (get_or (list_of dates slot) place []) }
{
    match list_in(slot) {
        Some(Entries::Zero) => only_row(place),
        Some(Entries::Zeros) => zero_row(place),
        Some(Entries::Bases) => basis_row(place),
        Some(Entries::Statuses) => status_row(dates, place),
        None => [0, 0, 0],
    }
}

// The entry; none at this place, or no list; 12 or 4.
pub fn entry(field: Field, place: usize, dates: Dates) -> Result<Option<Row>, Refusal>
    ensures { Lists dates field.0 place result }
{
    if !are_fit(dates) {
        return Err(Refusal::Undated);
    }
    let slot = slot_of(field);
    if slot == SLOT_COUNT {
        return Err(Refusal::UnknownField);
    }
    let row = row_in(slot, place, dates);
    if row[0] == 0 {
        return Ok(None);
    }
    Ok(Some(Row {
        length: row[0],
        first: row[1],
        second: row[2],
    }))
}
