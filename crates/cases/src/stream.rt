// The cases of an input, one behind another.
ghost use Rattle.std.specs.Prelude.{◌≡◌};
ghost use Rattle.cases.specs.Cases.{left};

use crate::fields::Fields;
use crate::kind::Kind;

// A case: its kind in one byte, a length in two, big-endian, and so many bytes.
#[derive(Clone, Copy, Drop)]
pub struct Case<'a> {
    // None where it is not among those that are answered
    pub kind: Option<Kind>,
    pub bytes: &'a [u8],
}

// What is left of an input, and the kinds of cases that are answered.
#[derive(Clone, Copy, Drop)]
pub struct Cases<'a> {
    fields: Fields<'a>,
    answered: &'a [Kind],
}

impl<'a> Cases<'a> {
    pub fn of(input: &'a [u8], answered: &'a [Kind]) -> Cases<'a>
        ensures { left result ≡ input.now }
    {
        Cases {
            fields: Fields::of(input),
            answered,
        }
    }
}

impl<'a> Iterator for Cases<'a> {
    ghost use Rattle.std.specs.Prelude.{length};
    ghost use Rattle.std.specs.Iterator.{at_most};
    ghost use Rattle.cases.specs.Cases.{left, TakesFirst};

    type Item = Case<'a>;

    ghost next_gives = { TakesFirst };

    ghost remaining = { λ s. at_most (length (left s)) };

    fn next(&mut self) -> Option<Case<'a>> {
        if self.fields.rest.is_empty() {
            return None;
        }
        let kind = match Kind::try_from(self.fields.u8()) {
            Ok(kind) if self.answered.contains(&kind) => Some(kind),
            _ => None,
        };
        let size = self.fields.u16();
        let bytes = self.fields.take(usize::from(size));
        Some(Case { kind, bytes })
    }
}
