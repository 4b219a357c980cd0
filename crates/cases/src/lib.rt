// What the example programs do with the cases of their input: each answers those kinds that it names, and what a second implementation
// answers is its expected output.
#![tactic(auto)]

ghost use Rattle.std.specs.Prelude.{◌≡◌, ◌≤◌, None, Some, OnOk, [], ◌∷◌, length};
ghost use Rattle.std.specs.Io.KnownBytes.{Appends};
ghost use Rattle.report.specs.Report.{report_of};
ghost use Rattle.cases.specs.declared.kind.Kind.TheVariants.{Report};

mod amount_cases;
mod draft_cases;
mod fields;
mod kind;
mod order_cases;
mod sheet_cases;
mod standard;
mod stream;
mod written;

use crate::fields::Fields;
pub use crate::kind::{Kind, UnknownKind};
pub use crate::standard::run;
pub use crate::stream::{Case, Cases};
use sheets::dates::program_dates;
use std::io::{Result, Write};

// Writes what a case answers, and a line end: alone where its kind is not answered, and none behind a report.
pub fn answer<W: Write>(case: Case<'_>, out: &mut W) -> Result<()>
    ensures unanswered { case.entry.kind ≡ None → OnOk result (Appends (W.contents out.old) (W.contents out.new) (10 ∷ [])) }
    ensures report { case.entry.kind ≡ Some Report → length case.entry.bytes.now ≤ 32768 → OnOk result (Appends (W.contents out.old) (W.contents out.new) (report_of case.entry.bytes.now)) }
{
    let Some(kind) = case.kind else {
        return out.write_all(b"\n");
    };
    write_answer(kind, case.bytes, out)?;
    match kind {
        Kind::Report => Ok(()),
        _ => out.write_all(b"\n"),
    }
}

// What a case of a kind answers, without the line end.
fn write_answer<W: Write>(kind: Kind, bytes: &[u8], out: &mut W) -> Result<()>
    ensures { kind ≡ Report → length bytes.now ≤ 32768 → OnOk result (Appends (W.contents out.old) (W.contents out.new) (report_of bytes.now)) }
{
    let mut fields = Fields::of(bytes);
    match kind {
        Kind::Report => order_cases::report(bytes, out),
        Kind::Check => sheet_cases::check(bytes, program_dates(), out),
        Kind::CheckAt => {
            let dates = fields.dates();
            sheet_cases::check(fields.rest, dates, out)
        }
        Kind::BrokenRules => {
            let dates = fields.dates();
            sheet_cases::broken_rules(fields.rest, dates, out)
        }
        Kind::WriteLines => {
            let dates = fields.dates();
            sheet_cases::write_lines(fields.rest, dates, &mut [0; 137], out)
        }
        Kind::WriteShort => {
            let dates = fields.dates();
            sheet_cases::write_lines(fields.rest, dates, &mut [0; 112], out)
        }
        Kind::ReadLines => sheet_cases::read_lines(bytes, out),
        Kind::Message => draft_cases::read(bytes, out),
        Kind::WriteMessage => draft_cases::write(fields, out),
        Kind::Fresh => draft_cases::fresh(bytes, out),
        Kind::Post => {
            let size = fields.u16();
            let draft = fields.take(usize::from(size));
            draft_cases::post(draft, fields.rest, out)
        }
        Kind::Copy => {
            let size = fields.u16();
            let draft = fields.take(usize::from(size));
            draft_cases::copy(draft, fields.rest, out)
        }
        Kind::Complete => order_cases::complete(fields, false, out),
        Kind::Quick => order_cases::complete(fields, true, out),
        Kind::TakeUp => order_cases::take_up_set(fields, out),
        Kind::Pretest => order_cases::pretest(bytes, out),
        Kind::Entry => order_cases::entry(fields, out),
        Kind::Origins => order_cases::origins(bytes, out),
        Kind::Charge => amount_cases::charge(fields, out),
        Kind::Part => amount_cases::part_of_year(fields, out),
        Kind::Shares => amount_cases::shares(bytes, out),
        Kind::Pool => amount_cases::pool(fields, out),
        Kind::Leave => amount_cases::leave(fields, out),
    }
}
