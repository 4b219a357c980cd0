// The end of the report: the completion's answer and the sheet.
ghost use Rattle.std.specs.Prelude.{◌≡◌, ◌+◌, ◌≤◌, length, cond};
ghost use Rattle.texts.specs.Quoted.{bytes};
ghost use Rattle.texts.specs.Texts.{blank};
ghost use Rattle.sheets.specs.Sheet.{slots, text_of};
ghost use Rattle.sheets.specs.Dates.{program_dates};
ghost use Rattle.orders.specs.Whole.{Completes};
ghost use Rattle.report.specs.Report.{field_lines, ending};
ghost use Rattle.report.specs.Working.Page.{Puts};

use crate::lines::{Item, Page, number_of};
use orders::complete::{Filled, Incomplete, complete};
use sheets::dates::program_dates;
use sheets::sheet::{SHEET_SIZE, SLOT_COUNT, field_in, text};
use texts::answers::Refusal;

// "For a blank 15 the text is `-`".
fn shown(sheet: &[u8], slot: u8) -> &[u8]
    ensures { result.now ≡ cond (blank (text_of sheet.now slot)) (bytes "-") (text_of sheet.now slot) }
{
    let shown = text(sheet, slot);
    if shown.is_empty() { b"-" } else { shown }
}

// "15 lines .. in slot order": "field number, a space and the sheet's text".
fn put_fields(page: &mut Page<'_>, sheet: &[u8])
    requires { page.old.len + 705 ≤ length page.old.buffer.now }
    ensures { Puts page.old (field_lines sheet.now slots) page.new × (page.new.len ≤ page.old.len + 705) }
{
    for slot in 0..SLOT_COUNT {
        page.put_line(
            Item::Number(usize::from(field_in(slot).0)),
            &[Item::Word(shown(sheet, slot))],
        );
    }
}

// At the program's dates (R-7).
fn complete_draft(draft: &[u8], sheet: &mut [u8]) -> Result<Filled, Incomplete>
    ensures { Completes program_dates draft.now sheet.old result sheet.new }
{
    complete(draft, sheet, program_dates())
}

// "Then it completes the draft and prints the end".
pub(crate) fn put_end(page: &mut Page<'_>, draft: &[u8])
    requires { page.old.len + 733 ≤ length page.old.buffer.now }
    ensures { Puts page.old (ending draft.now) page.new × (page.new.len ≤ page.old.len + 733) }
{
    let end = Item::Word(b"end");
    let mut sheet = [0u8; SHEET_SIZE];
    match complete_draft(draft, &mut sheet) {
        Ok(Filled { count, .. }) => {
            page.put_line(end, &[Item::Word(b"ok"), Item::Number(count)]);
            put_fields(page, &sheet);
        }
        Err(Incomplete::Impossible(count)) => {
            page.put_line(
                end,
                &[
                    Item::Number(number_of(Refusal::Impossible)),
                    Item::Number(count),
                ],
            );
        }
        Err(Incomplete::Broken(field, rule)) => page.put_line(
            end,
            &[
                Item::Number(number_of(Refusal::BrokenRule)),
                Item::Number(usize::from(field.0)),
                Item::Number(usize::from(rule.0)),
            ],
        ),
        Err(Incomplete::Refused(refusal)) => {
            page.put_line(end, &[Item::Number(number_of(refusal))]);
        }
    }
}
