// The class of a sheet, by its facts.
ghost use Rattle.std.specs.Prelude.{◌≡◌};
ghost use Rattle.sheets.specs.Sheet.{Sheet};
ghost use Rattle.sheets.specs.Working.Facts.{Read};
ghost use Rattle.sheets.specs.declared.dates.Dates.{Dates};
ghost use Rattle.rules.specs.Rules.{budget, class_a};
ghost use Rattle.rules.specs.Working.Tests.{budget_on, ordinary, class_on};

use sheets::facts::Facts;

#[derive(Clone, Copy, Debug, PartialEq, Eq)]
pub enum Class {
    A,
    B,
    O,
}

pub(crate) fn class_of(f: Facts) -> Class
    ensures { result ≡ class_on f }
{
    if f.banking.account.a {
        return Class::A;
    }
    if f.banking.account.b {
        return Class::B;
    }
    Class::O
}

pub(crate) fn is_ordinary(f: Facts) -> bool
    ensures { result ≡ ordinary f }
{
    !is_budget(f)
}

pub fn is_budget(f: Facts) -> bool
    ensures { ((D : Dates) (s : Sheet) → Read D f s → result ≡ budget s) × (result ≡ budget_on f) }
{
    f.banking.account.a | f.banking.account.b
}

pub fn is_class_a(f: Facts) -> bool
    ensures { ((D : Dates) (s : Sheet) → Read D f s → result ≡ class_a s) × (result ≡ f.banking.account.a) }
{
    let class = f.banking.account;
    class.a
}
