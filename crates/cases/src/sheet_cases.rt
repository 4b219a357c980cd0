// Cases of sheets and of their lines.
use crate::written::{OK, Refused, Rejected, write_slots};
use rules::all_broken;
use rules::check::Rejection;
use rules::class::Class;
use sheets::dates::Dates;
use sheets::sheet::SHEET_SIZE;
use std::io::{Result, Write};
use swift::{read, write};
use texts::parts::part;

// The class of a sheet, or a broken rule behind 8 and the field that it names, the 8 and its space at one time.
pub(crate) fn check<W: Write>(sheet: &[u8], dates: Dates, out: &mut W) -> Result<()> {
    match rules::check::check(sheet, dates) {
        Ok(Class::A) => write!(out, "ok A"),
        Ok(Class::B) => write!(out, "ok B"),
        Ok(Class::O) => write!(out, "ok O"),
        Err(Rejection::Broken(field, rule)) => write!(out, "8 {} {}", field.0, rule.0),
        Err(Rejection::Refused(refusal)) => write!(out, "{}", Refused(refusal)),
    }
}

// All rules that a sheet breaks.
pub(crate) fn broken_rules<W: Write>(sheet: &[u8], dates: Dates, out: &mut W) -> Result<()> {
    match all_broken::broken_rules(sheet, dates) {
        Ok(set) => write!(out, "{OK} {set}"),
        Err(refusal) => write!(out, "{}", Refused(refusal)),
    }
}

// The MT103 lines of a sheet, written into a buffer: their length and, below it, the lines.
pub(crate) fn write_lines<W: Write>(
    sheet: &[u8],
    dates: Dates,
    buffer: &mut [u8],
    out: &mut W,
) -> Result<()> {
    match write::write_lines(sheet, dates, buffer) {
        Ok(size) => {
            writeln!(out, "{OK} {size}")?;
            out.write_all(part(buffer, 0, size))
        }
        Err(rejection) => write!(out, "{}", Rejected(rejection)),
    }
}

// A block of MT103 lines is read into a sheet that holds other bytes.
pub(crate) fn read_lines<W: Write>(block: &[u8], out: &mut W) -> Result<()> {
    let mut sheet = [255; SHEET_SIZE];
    match read::read_lines(block, &mut sheet) {
        Ok(()) => {
            out.write_all(b"ok")?;
            write_slots(&sheet, out)
        }
        Err(refusal) => write!(out, "{}", Refused(refusal)),
    }
}
