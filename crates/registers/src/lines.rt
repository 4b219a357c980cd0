// The lines of a register (R-12).
ghost use Rattle.std.specs.Prelude.{◌≡◌, true, ◌+◌, ◌*◌, ◌≤◌, length};
ghost use Rattle.amounts.specs.Amount.{most_kopecks};
ghost use Rattle.registers.specs.Register.{kopecks_size, most_lines, line_of, lines_of, line_right, lines_right, register_right, total_of};
ghost use Rattle.registers.specs.Working.Parts.{big_at};

use amounts::amount::{Kopecks, is_amount};
use sheets::forms::is_inn12;
use texts::numbers::number_of;

// "12 bytes, then eight, big-endian"
pub(crate) const LINE_SIZE: usize = 20;

pub(crate) const INN_SIZE: usize = 12;

// "1 to 500 lines"
const MOST_LINES: usize = 500;

// The number of the eight bytes from place at on.
pub(crate) fn number_at(t: &[u8], at: usize) -> u64
    requires { at + kopecks_size ≤ length t.now }
    ensures { result ≡ big_at t.now at }
{
    let bytes = t[at..].first_chunk::<8>().unwrap();
    number_of(*bytes)
}

pub(crate) fn inn_of(line: &[u8; 20]) -> &[u8]
    ensures { result.now ≡ (line_of line.now).0 }
{
    &line[..INN_SIZE]
}

pub(crate) fn kopecks_of(line: &[u8; 20]) -> Kopecks
    ensures { result.0 ≡ (line_of line.now).1 }
{
    Kopecks(number_at(line, INN_SIZE))
}

// "each a 12-digit INN (under R-4) and 1 to 10^12 kopecks"
fn is_line(line: &[u8; 20]) -> bool
    ensures { result ≡ line_right (line_of line.now) }
{
    is_inn12(inn_of(line)) & is_amount(kopecks_of(line))
}

fn are_lines(register: &[u8]) -> bool
    ensures { result ≡ lines_right (lines_of register.now) }
{
    let (lines, _) = register.as_chunks::<LINE_SIZE>();
    lines.iter().all(|line| is_line(line))
}

// "a register of 1 to 500 lines"
pub(crate) fn is_register(register: &[u8]) -> bool
    ensures { result ≡ register_right register.now }
{
    let (lines, rest) = register.as_chunks::<LINE_SIZE>();
    rest.is_empty() && 1 <= lines.len() && lines.len() <= MOST_LINES && are_lines(register)
}

// "the total of the register"
pub(crate) fn total_of(register: &[u8]) -> Kopecks
    requires { register_right register.now ≡ true }
    ensures { (result.0 ≡ total_of (lines_of register.now)) × (result.0 ≤ most_lines * most_kopecks) }
{
    let (lines, _) = register.as_chunks::<LINE_SIZE>();
    let mut sum: u64 = 0;
    for line in lines {
        sum += kopecks_of(line).0;
    }
    Kopecks(sum)
}
