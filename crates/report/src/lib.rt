// What the program budgetorder writes (document 01, "Writer and program"): every byte of it is proved.
#![tactic(auto)]

ghost use Rattle.report.specs.Promises.{Reports};

mod end;
mod lines;
mod messages;

use crate::end::put_end;
use crate::lines::Page;
use crate::messages::put_messages;
use drafts::draft::{DRAFT_SIZE, fresh};

// "Reads at most 32,768 bytes of standard input".
pub const INPUT_SIZE: usize = 32768;

// No report of such an input is longer.
pub const REPORT_SIZE: usize = 46080;

// Writes the report of an input at the buffer's start and answers how long it is; 0, and nothing is written, where the input is
// longer than INPUT_SIZE or the buffer shorter than REPORT_SIZE.
pub fn report(input: &[u8], out: &mut [u8]) -> usize
    ensures { Reports input.now out.old result out.new }
{
    if INPUT_SIZE < input.len() {
        return 0;
    }
    if out.len() < REPORT_SIZE {
        return 0;
    }
    let mut draft = [0u8; DRAFT_SIZE];
    let _ = fresh(&mut draft);
    let mut page = Page::new(out);
    put_messages(&mut page, &mut draft, input);
    put_end(&mut page, &draft);
    page.len
}
