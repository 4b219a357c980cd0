// Entries of 101, 106, 108 and 109, as cells begin, and the facts of a sheet with one put into a blank field.
ghost use Rattle.std.specs.Prelude.{◌≡◌, cond, [], ◌<◌, ◌≤◌, get_or};
ghost use Rattle.texts.specs.Texts.{blank, number};
ghost use Rattle.sheets.specs.Sheet.{Sheet, cell, text_of};
ghost use Rattle.sheets.specs.Working.Facts.{standing_of, basis_of, document_of, day_of, Read};
ghost use Rattle.sheets.specs.Lists.{basis_texts, zero_texts};
ghost use Rattle.sheets.specs.Dates.{texts_in, status_texts, status_count};
ghost use Rattle.sheets.specs.declared.dates.Dates.{Dates};
ghost use Rattle.sheets.specs.Working.Entries.{row_of, filled_at, count_in, with_status, with_basis, with_document, with_day, TellsBlank, FillsSlot};

use crate::dates::{Dates, Force, force_of};
use crate::facts::{Basis, Day, Document, Facts, STATUSES, Standing, standing_by, standing_of};
use crate::forms::{LETTER_PAIR_COUNT, LETTER_PAIRS, Status};
use texts::parts::at;

// "108 and 109: "0", "00""; the list of 106 begins with these.
pub const ZERO_COUNT: usize = 2;

const ZEROS: [[u8; 3]; ZERO_COUNT] = [[1, 48, 0], [2, 48, 48]];

pub const BASIS_COUNT: usize = ZERO_COUNT + LETTER_PAIR_COUNT;

// How many statuses are in force.
fn count_in(force: Force) -> usize
    ensures { result ≡ count_in force }
{
    20 + usize::from(force.s02) + usize::from(force.s32) + usize::from(force.s33)
}

// The number of status k of those in force: it stands past 02 and 32 where these are not.
fn number_in(force: Force, k: usize) -> u8
    requires { k < count_in force }
    ensures { result ≡ number 2 (get_or (texts_in force) k []) }
{
    let a = k + usize::from((1 <= k) & !force.s02);
    let b = a + usize::from((21 <= a) & !force.s32);
    at(&STATUSES, b)
}

// An entry of a list as a cell begins, the length and two bytes; the blank past its end.
pub fn status_row(dates: Dates, k: usize) -> [u8; 3]
    ensures { result ≡ row_of (get_or (status_texts dates) k []) }
{
    let force = force_of(dates);
    if count_in(force) <= k {
        return [0, 0, 0];
    }
    let n = number_in(force, k);
    [2, 48 + n / 10 % 10, 48 + n % 10]
}

pub fn zero_row(k: usize) -> [u8; 3]
    ensures { result ≡ row_of (get_or zero_texts k []) }
{
    ZEROS.get(k).copied().unwrap_or([0, 0, 0])
}

pub fn basis_row(k: usize) -> [u8; 3]
    ensures { result ≡ row_of (get_or basis_texts k []) }
{
    if k < ZERO_COUNT {
        return zero_row(k);
    }
    match LETTER_PAIRS.get(k - ZERO_COUNT) {
        Some(pair) => [2, pair[0], pair[1]],
        None => [0, 0, 0],
    }
}

// The facts of an entry, which the search asks for again and again: by the status's number; "0", "00" and, for 106, the letter pairs by
// the place in the list; the blank past the end.
fn status_entry(force: Force, k: usize) -> Standing
    ensures { result ≡ standing_of force (get_or (texts_in force) k []) }
{
    if count_in(force) <= k {
        return standing_of(&[], force);
    }
    standing_by(Status(usize::from(number_in(force, k))), false, true)
}

fn basis_entry(k: usize) -> Basis
    ensures { result ≡ basis_of (get_or basis_texts k []) }
{
    Basis {
        blank: BASIS_COUNT <= k,
        zero: k == 0,
        zeros: k == 1,
        letters: (ZERO_COUNT <= k) & (k < BASIS_COUNT),
    }
}

pub(crate) fn document_entry(k: usize) -> Document
    ensures { result ≡ document_of (get_or zero_texts k []) }
{
    Document {
        blank: ZERO_COUNT <= k,
        fit: k < ZERO_COUNT,
        person: false,
        pension: true,
        zero: k == 0,
        zeros: k == 1,
    }
}

fn day_entry(k: usize) -> Day
    ensures { result ≡ day_of (get_or zero_texts k []) }
{
    Day {
        blank: ZERO_COUNT <= k,
        zero: k == 0,
        zeros: k == 1,
        date: false,
    }
}

// What a crate above needs of facts, in words of sheets: how many statuses there are, whether a field that can vary is blank, and the facts of
// a sheet with entry k of that field's list put in. fill_basis, fill_document and fill_day take two facts: f, read of the sheet s as it was
// given, and g, read of a sheet t that may have another entry in the fields before, and in this field the text of s; they give those of t with
// the entry. Beside this each answer is said of all facts, whether or not they were read of a sheet.
pub fn status_count(f: Facts) -> usize
    ensures { ((D : Dates) (s : Sheet) → Read D f s → result ≡ status_count D) × ((20 ≤ result) × ((result ≤ 23) × (result ≡ count_in f.force))) }
{
    count_in(f.force)
}

pub fn blank_status(f: Facts) -> bool
    ensures { TellsBlank f 6 result × (result ≡ f.status.blank) }
{
    f.status.blank
}

pub fn blank_basis(f: Facts) -> bool
    ensures { TellsBlank f 11 result × (result ≡ f.basis.blank) }
{
    f.basis.blank
}

pub fn blank_document(f: Facts) -> bool
    ensures { TellsBlank f 13 result × (result ≡ f.document.blank) }
{
    f.document.blank
}

pub fn blank_day(f: Facts) -> bool
    ensures { TellsBlank f 14 result × (result ≡ f.day.blank) }
{
    f.day.blank
}

pub fn fill_status(f: Facts, k: usize) -> Facts
    ensures { ((D : Dates) (s : Sheet) → Read D f s → Read D result (filled_at s 6 (cell (get_or (status_texts D) k [])))) × (result ≡ with_status f f k) }
{
    let status = if f.status.blank {
        status_entry(f.force, k)
    } else {
        f.status
    };
    Facts { status, ..f }
}

pub fn fill_basis(g: Facts, f: Facts, k: usize) -> Facts
    ensures { FillsSlot g f 11 basis_texts k result × (result ≡ with_basis g f k) }
{
    let basis = if f.basis.blank {
        basis_entry(k)
    } else {
        f.basis
    };
    Facts { basis, ..g }
}

pub fn fill_document(g: Facts, f: Facts, k: usize) -> Facts
    ensures { FillsSlot g f 13 zero_texts k result × (result ≡ with_document g f k) }
{
    let document = if f.document.blank {
        document_entry(k)
    } else {
        f.document
    };
    Facts { document, ..g }
}

pub fn fill_day(g: Facts, f: Facts, k: usize) -> Facts
    ensures { FillsSlot g f 14 zero_texts k result × (result ≡ with_day g f k) }
{
    let day = if f.day.blank { day_entry(k) } else { f.day };
    Facts { day, ..g }
}
