// A line for each message of an input, which is posted on the way.
ghost use Rattle.std.specs.Prelude.{◌≡◌, ◌≤◌, length};
ghost use Rattle.drafts.specs.Draft.{fresh_draft, post_answer};
ghost use Rattle.report.specs.Report.{shown};
ghost use Rattle.report.specs.Working.Page.{item_text};
ghost use Rattle.report.specs.Working.Told.{Told};

use crate::lines::{Item, Page, number_of};
use drafts::draft::post;
use drafts::revision::Standing;
use orders::stream::Messages;
use texts::answers::Refusal;

// "Newer, same, older or the refusal number".
fn shown(posted: Result<Standing, Refusal>) -> Item<'static>
    ensures { (item_text result ≡ shown (post_answer posted)) × (length (item_text result) ≤ 5) }
{
    match posted {
        Ok(Standing::Newer) => Item::Word(b"newer"),
        Ok(Standing::Same) => Item::Word(b"same"),
        Ok(Standing::Older) => Item::Word(b"older"),
        Err(refusal) => Item::Number(number_of(refusal)),
    }
}

// "Per message a line". The draft begins fresh and holds what the messages leave.
pub(crate) fn put_messages(page: &mut Page<'_>, draft: &mut [u8], input: &[u8])
    requires draft_value { draft.old ≡ fresh_draft }
    requires input_len_bound { length input.now ≤ 32768 }
    requires empty { page.old.len ≡ 0 }
    requires in_bounds { 46080 ≤ length page.old.buffer.now }
    ensures { Told input.now page.old draft.new page.new }
{
    for (index, message) in Messages::of(input).enumerate() {
        let answer = shown(post(draft, message));
        page.put_line(Item::Number(index + 1), &[answer]);
    }
}
