// Lines of items, written into a lent buffer one behind the other.
ghost use Rattle.std.specs.Prelude.{◌≡◌, ◌+◌, ◌<◌, ◌≤◌, length, map, drop};
ghost use Rattle.texts.specs.Refusals.{refusal_number};
ghost use Rattle.report.specs.Lines.{decimal, line};
ghost use Rattle.report.specs.Working.Page.{item_text, Puts};

use texts::answers::Refusal;
use texts::buffers::put;

// A word, or a number that is written in decimal.
#[derive(Clone, Copy)]
pub(crate) enum Item<'a> {
    Word(&'a [u8]),
    Number(usize),
}

pub(crate) fn number_of(refusal: Refusal) -> usize
    ensures { (result ≡ refusal_number refusal) × (result < 256) }
{
    usize::from(u8::from(refusal))
}

// A number in decimal: its digits stand from place `from` on.
#[derive(Clone, Copy)]
struct Decimal {
    digits: [u8; 20],
    from: usize,
}

fn decimal_of(n: usize) -> Decimal
    ensures { (drop result.from result.digits ≡ decimal n) × (result.from ≤ length result.digits) }
{
    let mut digits = [0u8; 20];
    let mut rest = n;
    for from in (0..20).rev() {
        digits[from] = b'0' + (rest % 10) as u8;
        if rest < 10 {
            return Decimal { digits, from };
        }
        rest /= 10;
    }
    Decimal { digits, from: 0 }
}

// What is written so far, at the start of a buffer.
#[derive(Drop)]
pub(crate) struct Page<'a> {
    buffer: &'a mut [u8],
    pub len: usize,
}

impl<'a> Page<'a> {
    pub(crate) fn new(buffer: &'a mut [u8]) -> Page<'a>
        ensures same { result.buffer.ghost_name ≡ buffer.entry.ghost_name }
        ensures buffer { result.buffer.now ≡ buffer.old }
        ensures len { result.len ≡ 0 }
    {
        Page { buffer, len: 0 }
    }

    fn put(&mut self, text: &[u8])
        requires { self.old.len + length text.now ≤ length self.old.buffer.now }
        ensures { Puts self.old text.now self.new }
    {
        put(self.buffer, self.len, text);
        self.len += text.len();
    }

    fn put_item(&mut self, item: Item<'_>)
        requires { self.old.len + length (item_text item) ≤ length self.old.buffer.now }
        ensures { Puts self.old (item_text item.entry) self.new }
    {
        match item {
            Item::Word(text) => self.put(text),
            Item::Number(n) => {
                let decimal = decimal_of(n);
                self.put(&decimal.digits[decimal.from..]);
            }
        }
    }

    // "Items on a line are parted by one space".
    pub(crate) fn put_line(&mut self, first: Item<'_>, others: &[Item<'_>])
        requires { self.old.len + length (line (item_text first) (map item_text others.now)) ≤ length self.old.buffer.now }
        ensures { Puts self.old (line (item_text first.entry) (map item_text others.now)) self.new }
    {
        self.put_item(first);
        for other in others {
            self.put(b" ");
            self.put_item(*other);
        }
        self.put(b"\n");
    }
}
