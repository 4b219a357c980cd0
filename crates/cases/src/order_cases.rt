// Cases of orders and reports.
ghost use Rattle.std.specs.Prelude.{◌≤◌, OnOk, length};
ghost use Rattle.std.specs.Io.KnownBytes.{Appends};
ghost use Rattle.report.specs.Report.{report_of};

use crate::fields::Fields;
use crate::written::{Broken, OK, Refused, Rejected, write_text};
use orders::complete::{Filled, Incomplete};
use orders::pretest::Named;
use orders::quick::quick;
use orders::stream::gather;
use orders::take_up::{Untaken, take_up};
use orders::{entry, origins, pretest};
use report::REPORT_SIZE;
use sheets::dates::Dates;
use sheets::sheet::{Field, SHEET_SIZE, text};
use std::io::{Result, Write};
use texts::answers::Refusal;
use texts::parts::part;

// Completes a draft; with the number of skipped statuses, where that is asked for and there is a sheet or 10.
fn complete_draft<W: Write>(
    draft: &[u8],
    dates: Dates,
    with_skipped: bool,
    out: &mut W,
) -> Result<()> {
    let mut sheet = [0; SHEET_SIZE];
    let answer = quick(draft, &mut sheet, dates);
    match answer.completed {
        Ok(Filled { count, set, ones }) => {
            write!(out, "{OK} {count} {set} {ones} ")?;
            write_text(text(&sheet, 6), out)?;
        }
        Err(Incomplete::Impossible(count)) => {
            write!(out, "{} {count}", Refused(Refusal::Impossible))?;
        }
        Err(Incomplete::Broken(field, rule)) => return write!(out, "{}", Broken(field, rule)),
        Err(Incomplete::Refused(refusal)) => return write!(out, "{}", Refused(refusal)),
    }
    if with_skipped {
        write!(out, " {}", answer.skipped)?;
    }
    Ok(())
}

// Messages are posted to a fresh draft, and that is completed at the dates before them, with the number of skipped statuses or without.
pub(crate) fn complete<W: Write>(
    mut fields: Fields<'_>,
    with_skipped: bool,
    out: &mut W,
) -> Result<()> {
    let dates = fields.dates();
    complete_draft(&gather(fields.rest), dates, with_skipped, out)
}

// Messages are posted to a fresh draft, and that is completed at the dates before them; the values of the set between them are taken up from
// the sheet, which a refusal leaves blank, and the draft is completed again.
pub(crate) fn take_up_set<W: Write>(mut fields: Fields<'_>, out: &mut W) -> Result<()> {
    let dates = fields.dates();
    let set = fields.u16();
    let mut draft = gather(fields.rest);
    let mut sheet = [0; SHEET_SIZE];
    quick(&draft, &mut sheet, dates);
    match take_up(&mut draft, &sheet, set) {
        Ok(()) => {
            out.write_all(b"ok ")?;
            complete_draft(&draft, dates, false, out)
        }
        Err(Untaken::Unfit(field)) => write!(out, "{} {}", Refused(Refusal::Unfit), field.0),
        Err(Untaken::Refused(refusal)) => write!(out, "{}", Refused(refusal)),
    }
}

// A draft is tested ahead of completion.
pub(crate) fn pretest<W: Write>(draft: &[u8], out: &mut W) -> Result<()> {
    match pretest::pretest(draft) {
        Ok(Some(Named { field, rule })) => write!(out, "{OK} {} {}", field.0, rule.0),
        Ok(None) => write!(out, "ok none"),
        Err(rejection) => write!(out, "{}", Rejected(rejection)),
    }
}

// The entry at a place, of two bytes, of a field's list at the dates before them; the field's number is behind.
pub(crate) fn entry<W: Write>(mut fields: Fields<'_>, out: &mut W) -> Result<()> {
    let dates = fields.dates();
    let place = usize::from(fields.u16());
    let field = Field(fields.u8());
    match entry::entry(field, place, dates) {
        Ok(Some(row)) => write!(out, "{OK} {} {} {}", row.length, row.first, row.second),
        Ok(None) => write!(out, "ok none"),
        Err(refusal) => write!(out, "{}", Refused(refusal)),
    }
}

// Of messages end to end, the number of the one that each slot holds.
pub(crate) fn origins<W: Write>(input: &[u8], out: &mut W) -> Result<()> {
    out.write_all(b"ok")?;
    for number in &origins::origins(input) {
        write!(out, " {number}")?;
    }
    Ok(())
}

// The report of an input of the program budgetorder, with all its lines. Not inlined, so that other cases need no room for it.
#[inline(never)]
pub(crate) fn report<W: Write>(input: &[u8], out: &mut W) -> Result<()>
    ensures { length input.now ≤ 32768 → OnOk result (Appends (W.contents out.old) (W.contents out.new) (report_of input.now)) }
{
    let mut buffer = [0; REPORT_SIZE];
    let size = report::report(input, &mut buffer);
    out.write_all(part(&buffer, 0, size))
}
