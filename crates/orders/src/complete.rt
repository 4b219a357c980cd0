// Completion: the first filling of a draft that keeps the rules.
ghost use Rattle.std.specs.Prelude.{◌≡◌};
ghost use Rattle.orders.specs.Working.Paying.{incomplete_by};
ghost use Rattle.orders.specs.Whole.{Completes};

use crate::quick::quick;
use rules::check::Rejection;
use rules::rules::RuleNumber;
use sheets::dates::Dates;
use sheets::sheet::Field;
use texts::answers::Refusal;

// Of the first filling that keeps the rules: its count, the set of filled slots and how many bits are set.
#[derive(Clone, Copy, Debug, PartialEq, Eq)]
pub struct Filled {
    pub count: usize,
    pub set: u16,
    pub ones: u32,
}

// Why a draft is not completed: 10 with the count of all fillings; 8; 1, 7, 12 or 9.
#[derive(Clone, Copy, Debug, PartialEq, Eq)]
pub enum Incomplete {
    Impossible(usize),
    Broken(Field, RuleNumber),
    Refused(Refusal),
}

impl From<Rejection> for Incomplete {
    ghost from_gives = { λ r e. e ≡ incomplete_by r };

    fn from(rejection: Rejection) -> Incomplete {
        match rejection {
            Rejection::Broken(field, rule) => Incomplete::Broken(field, rule),
            Rejection::Refused(refusal) => Incomplete::Refused(refusal),
        }
    }
}

// One search serves both: how many statuses it skipped is dropped here.
pub fn complete(draft: &[u8], sheet: &mut [u8], dates: Dates) -> Result<Filled, Incomplete>
    ensures { Completes dates draft.now sheet.old result sheet.new }
{
    quick(draft, sheet, dates).completed
}
