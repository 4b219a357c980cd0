// Fields, and a sheet's texts and form.
ghost use Rattle.std.specs.Prelude.{◌≡◌, ◌+◌, ◌*◌, ◌≤◌};
ghost use Rattle.texts.specs.Texts.{every, are, between};
ghost use Rattle.sheets.specs.Sheet.{slot_count, slot_of, field_in, cell_size, cell_text, cell_ok, cell_of, text_of, well_formed};
ghost use Rattle.sheets.specs.Working.Cells.{cells_at};

use texts::comparisons::all_are;
use texts::parts::{at, part};

// "A text has 0 to 25 bytes".
pub const TEXT_MAX: usize = 25;

pub const CELL_SIZE: usize = 1 + TEXT_MAX;

// "Fifteen fields, in slots 0 to 14".
const FIELD_COUNT: usize = 15;

pub const SLOT_COUNT: u8 = FIELD_COUNT as u8;

// "A sheet has 390 bytes, slot i at 26 × i".
pub const SHEET_SIZE: usize = FIELD_COUNT * CELL_SIZE;

const CELL_STEP: u8 = CELL_SIZE as u8;

// The number of a field of the order.
#[derive(Clone, Copy, Debug, PartialEq, Eq)]
pub struct Field(pub u8);

const FIELDS: [u8; FIELD_COUNT] = [
    14, 15, 17, 22, 60, 61, 101, 102, 103, 104, 105, 106, 107, 108, 109,
];

// The slot of a field, SLOT_COUNT where the field is not listed.
pub fn slot_of(field: Field) -> u8
    ensures { result ≡ slot_of field.0 }
{
    let f = field.0;
    match f {
        14 => 0,
        15 => 1,
        17 => 2,
        22 => 3,
        60 => 4,
        61 => 5,
        101 => 6,
        102 => 7,
        103 => 8,
        104 => 9,
        105 => 10,
        106 => 11,
        107 => 12,
        108 => 13,
        109 => 14,
        _ => 15,
    }
}

// The field of a slot.
pub fn field_in(slot: u8) -> Field
    ensures { result.0 ≡ field_in slot }
{
    Field(at(&FIELDS, usize::from(slot)))
}

fn cell(sheet: &[u8], slot: u8) -> &[u8]
    ensures { result.now ≡ cell_of sheet.now slot }
{
    let a = usize::from(slot) * CELL_SIZE;
    part(sheet, a, a + CELL_SIZE)
}

pub fn cell_text(c: &[u8]) -> &[u8]
    ensures { result.now ≡ cell_text c.now }
{
    let n = usize::from(at(c, 0));
    if n < c.len() {
        return &c[1..1 + n];
    }
    part(c, 1, 1 + n)
}

pub fn text(sheet: &[u8], slot: u8) -> &[u8]
    ensures { result.now ≡ text_of sheet.now slot }
{
    cell_text(cell(sheet, slot))
}

// All bytes of t are zero. Where t has W bytes, as it mostly has, the loop runs a number of times that the call fixes.
fn all_zero<const W: usize>(t: &[u8]) -> bool
    ensures { result ≡ every (are 0) t.now }
{
    if t.len() != W {
        return all_are(t, 0);
    }
    let mut good = true;
    for b in t {
        good = good & (*b == 0);
    }
    good
}

// The bytes of a cell from n on are zero, by two windows of W bytes that meet or overlap.
fn is_zero_from<const W: usize>(c: &[u8], n: usize) -> bool
    requires { (n + W ≤ cell_size) × (cell_size ≤ n + 2 * W) }
    ensures { result ≡ every (are 0) (between c.now n cell_size) }
{
    all_zero::<W>(part(c, n, n + W)) & all_zero::<W>(part(c, CELL_SIZE - W, CELL_SIZE))
}

// The bytes of a cell from n on are zero. The test of the size fixes the widths of the windows.
fn is_padded(c: &[u8], n: usize) -> bool
    ensures { result ≡ every (are 0) (between c.now n cell_size) }
{
    if c.len() != CELL_SIZE {
        return all_are(part(c, n, CELL_SIZE), 0);
    }
    if n <= 10 {
        return is_zero_from::<16>(c, n);
    }
    if n <= 18 {
        return is_zero_from::<8>(c, n);
    }
    if n <= 22 {
        return is_zero_from::<4>(c, n);
    }
    all_are(part(c, n, CELL_SIZE), 0)
}

// A cell has a length of at most 25, and zero bytes after its text.
fn cell_ok(c: &[u8]) -> bool
    ensures { result ≡ cell_ok c.now }
{
    let n = usize::from(at(c, 0));
    (n <= TEXT_MAX) & is_padded(c, 1 + n)
}

// Fifteen cells are so, the first at a place and each next a step further: a sheet's, or those in a draft. One loop tests both, so
// that `cell_ok` is called from one place and compiled into it; it ends at the first that is not so.
pub fn cells_ok(t: &[u8], first: u8, step: u8) -> bool
    ensures { result ≡ cells_at step slot_count t.now first }
{
    (0..FIELD_COUNT).all(|slot| {
        let place = usize::from(first) + slot * usize::from(step);
        t.get(place..place + CELL_SIZE).is_some_and(cell_ok)
    })
}

// "Malformed: another size, a length above 25, a nonzero pad byte".
pub fn well_formed(sheet: &[u8]) -> bool
    ensures { result ≡ well_formed sheet.now }
{
    if sheet.len() != SHEET_SIZE {
        return false;
    }
    cells_ok(sheet, 0, CELL_STEP)
}
