// An input of messages end to end: all of them posted to a fresh draft, and that draft completed.
ghost use Rattle.std.specs.Prelude.{◌≡◌, []};
ghost use Rattle.drafts.specs.Promises.{Postings};
ghost use Rattle.orders.specs.Stream.{piece_of, ends_stream, messages_of, Streams};
ghost use Rattle.orders.specs.Working.Messages.{messages_left};

use crate::complete::{Filled, Incomplete, complete};
use drafts::draft::{DRAFT_SIZE, fresh, post};
use drafts::message::read;
use sheets::dates::Dates;
use texts::answers::Refusal;
use texts::numbers::number_of;
use texts::parts::{at, part};

// The first message: "2 + L bytes or what is left if that is less".
pub fn piece(rest: &[u8]) -> &[u8]
    ensures { result.now ≡ piece_of rest.now }
{
    part(rest, 0, number_of([at(rest, 0), at(rest, 1)]) as usize + 2)
}

// "After a 2 it stops reading".
pub fn ends_stream(message: &[u8]) -> bool
    ensures { result ≡ ends_stream message.now }
{
    match read(message) {
        Ok(_) => false,
        Err(refusal) => refusal == Refusal::BadLength,
    }
}

// The messages of an input, one after another: what is left of it.
#[derive(Clone, Copy, Drop)]
pub struct Messages<'a> {
    rest: &'a [u8],
}

impl<'a> Messages<'a> {
    pub fn of(input: &'a [u8]) -> Messages<'a>
        ensures { messages_left result ≡ messages_of input.now }
    {
        Messages { rest: input }
    }
}

impl<'a> Iterator for Messages<'a> {
    ghost use Rattle.std.specs.Iterator.{YieldsFirstRef, item_count};
    ghost use Rattle.orders.specs.Working.Messages.{messages_left};

    type Item = &'a [u8];

    ghost next_gives = { YieldsFirstRef messages_left };

    ghost remaining = { item_count messages_left };

    fn next(&mut self) -> Option<&'a [u8]> {
        if self.rest.is_empty() {
            return None;
        }
        let message = piece(self.rest);
        let end = if ends_stream(message) {
            self.rest.len()
        } else {
            message.len()
        };
        self.rest = part(self.rest, end, self.rest.len());
        Some(message)
    }
}

// Posts the messages of an input one after another: what one is answered, that it is refused for example, makes no difference to the next.
fn post_stream(draft: &mut [u8], input: &[u8])
    requires { Postings [] draft.old }
    ensures { Postings (messages_of input.now) draft.new }
{
    for message in Messages::of(input) {
        let _ = post(draft, message);
    }
}

// The draft that they leave: posted to a fresh one.
pub fn gather(input: &[u8]) -> [u8; DRAFT_SIZE]
    ensures { Postings (messages_of input.now) result }
{
    let mut draft = [0u8; DRAFT_SIZE];
    let _ = fresh(&mut draft);
    post_stream(&mut draft, input);
    draft
}

// Demand 3 of an input: its messages are posted to a fresh draft, one after another, and the draft is completed.
pub fn complete_stream(input: &[u8], sheet: &mut [u8], dates: Dates) -> Result<Filled, Incomplete>
    ensures { Streams dates input.now sheet.old result sheet.new }
{
    let draft = gather(input);
    complete(&draft, sheet, dates)
}
