// Reading the lines of MT103: fixed strings compared at their places, the texts between them cut out.
ghost use Rattle.std.specs.Prelude.{◌≡◌, ◌+◌, ◌*◌, ◌≤◌, length, replicate};
ghost use Rattle.texts.specs.Working.Writing.{put_at};
ghost use Rattle.texts.specs.Texts.{starts_with, between};
ghost use Rattle.sheets.specs.Sheet.{text_max, cell_size, sheet_size, cell};
ghost use Rattle.swift.specs.Lines.{any_status, fits_in, sheet_with, parts_of};
ghost use Rattle.swift.specs.Working.Places.{marked, bank_parts_of};
ghost use Rattle.swift.specs.Promises.{ReadsLines};

use rules::class::is_class_a;
use rules::groups::kept_lines;
use sheets::dates::{Date, Dates};
use sheets::facts::facts_of;
use sheets::sheet::{CELL_SIZE, SHEET_SIZE};
use texts::answers::Refusal;
use texts::buffers::put;
use texts::parts::part;

// Dates at which all statuses are in force.
fn any_status() -> Dates
    ensures { result ≡ any_status }
{
    Dates {
        order: Date(20240101),
        first32: Date(20240101),
        first33: Date(20240101),
        last02: Date(20240101),
    }
}

// A fixed string stands at a place.
fn has_mark<const N: usize>(block: &[u8], at: usize, mark: &[u8; N]) -> bool
    ensures { result ≡ starts_with (between block.now at (length block.now)) mark.now }
{
    part(block, at, block.len()).first_chunk() == Some(mark)
}

// The block has a length that lines can have, and the fixed strings at their places. By `&` and not `&&`, so that the compiler makes a few
// comparisons of all of them.
fn has_marks(block: &[u8]) -> bool
    ensures { result ≡ marked block.now }
{
    let n = block.len();
    if n < 112 || 137 < n {
        return false;
    }
    has_mark(block, 0, b":26T:S")
        & has_mark(block, 8, b"\n:57D://RU")
        & has_mark(block, 27, b".")
        & has_mark(block, 48, b"\n:59:/")
        & has_mark(block, 74, b"\nINN")
        & has_mark(block, 88, b".KPP")
        & has_mark(block, 101, b"\n:72:/UIP/")
        & has_mark(block, n - 1, b"\n")
}

// The cell of a text.
fn cell_of(t: &[u8]) -> [u8; CELL_SIZE]
    requires { length t.now ≤ text_max }
    ensures { result ≡ cell t.now }
{
    let mut c = [0; CELL_SIZE];
    c[0] = t.len() as u8;
    c[1..1 + t.len()].copy_from_slice(t);
    c
}

// Puts a text into a slot.
fn put_text(sheet: &mut [u8], slot: u8, t: &[u8])
    requires { length t.now ≤ text_max }
    ensures { sheet.new ≡ put_at sheet.old (slot * cell_size) (cell t.now) }
{
    put(sheet, usize::from(slot) * CELL_SIZE, &cell_of(t));
}

// Puts the texts of a block's first three lines into an empty sheet.
fn put_bank_texts(sheet: &mut [u8], block: &[u8])
    requires { (sheet.old ≡ replicate sheet_size 0) × (112 ≤ length block.now) }
    ensures { sheet.new ≡ sheet_with (bank_parts_of block.now) }
{
    put_text(sheet, 6, &block[6..8]);
    put_text(sheet, 0, &block[18..27]);
    put_text(sheet, 1, &block[28..48]);
    put_text(sheet, 2, &block[54..74]);
}

// Puts those of the last two lines beside them.
fn put_payee_texts(sheet: &mut [u8], block: &[u8])
    requires { (sheet.old ≡ sheet_with (bank_parts_of block.now)) × (112 ≤ length block.now) × (length block.now ≤ 137) }
    ensures { sheet.new ≡ sheet_with (parts_of block.now) }
{
    let n = block.len();
    put_text(sheet, 5, &block[78..88]);
    put_text(sheet, 8, &block[92..101]);
    put_text(sheet, 3, &block[111..n - 1]);
}

// "Texts keep rules 1, 2, 3, 5, 7, 9, 10 and 12 and make class A".
fn is_fit(sheet: &[u8]) -> bool
    ensures { length sheet.now ≡ sheet_size → result ≡ fits_in sheet.now }
{
    let f = facts_of(sheet, any_status());
    kept_lines(f) & is_class_a(f)
}

// "A reader fills a sheet with these seven fields, all others blank".
pub fn read_lines(block: &[u8], sheet: &mut [u8]) -> Result<(), Refusal>
    ensures { ReadsLines block.now sheet.old result sheet.new }
{
    if sheet.len() != SHEET_SIZE {
        return Err(Refusal::WrongSize);
    }
    if !has_marks(block) {
        return Err(Refusal::NotLines);
    }
    let mut work = [0; SHEET_SIZE];
    put_bank_texts(&mut work, block);
    put_payee_texts(&mut work, block);
    if !is_fit(&work) {
        return Err(Refusal::NotLines);
    }
    sheet.copy_from_slice(&work);
    Ok(())
}
