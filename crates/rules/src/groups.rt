// The rules in groups: each by the last of 101, 106, 108, 109 that it reads, or that it reads none of them.
#![tactic(auto, unfolding(crate::specs::Working::Tests::holds))]

ghost use Rattle.std.specs.Prelude.{◌≡◌, true, map};
ghost use Rattle.texts.specs.Texts.{every};
ghost use Rattle.sheets.specs.Sheet.{Sheet};
ghost use Rattle.sheets.specs.Working.Facts.{Read};
ghost use Rattle.sheets.specs.declared.dates.Dates.{Dates};
ghost use Rattle.rules.specs.Rules.{budget, of_lines, keeps};
ghost use Rattle.rules.specs.Working.Tests.{holds, all_true, general_on};
ghost use Rattle.rules.specs.Working.Groups.{fixed_rules, status_rules, basis_rules, document_rules, day_rules};

use crate::rules;
use sheets::facts::Facts;

fn all_true(outcomes: &[bool]) -> bool
    ensures { result ≡ all_true outcomes.now }
{
    let mut all = true;
    for kept in outcomes {
        all = all & *kept;
    }
    all
}

// The outcomes of the rules for every sheet, at their numbers.
pub(crate) fn general_outcomes(f: Facts) -> [bool; 5]
    ensures { result ≡ general_on f }
{
    [
        true,
        rules::keeps1(f),
        rules::keeps2(f),
        rules::keeps3(f),
        rules::keeps4(f),
    ]
}

// The rules for classes A and B in groups: those that ask nothing of 101, 106, 108 and 109; then, each with what the ones before
// it ask too, those of 101, of 106, of 108 and of 109.
pub(crate) fn fixed_outcomes(f: Facts) -> [bool; 11]
    ensures { result ≡ map (holds f) fixed_rules }
{
    [
        rules::keeps5(f),
        rules::keeps7(f),
        rules::keeps8(f),
        rules::keeps9(f),
        rules::keeps11(f),
        rules::keeps12(f),
        rules::keeps13(f),
        rules::keeps14(f),
        rules::keeps16(f),
        rules::keeps22(f),
        rules::keeps28(f),
    ]
}

pub(crate) fn status_outcomes(f: Facts) -> [bool; 8]
    ensures { result ≡ map (holds f) status_rules }
{
    [
        rules::keeps10(f),
        rules::keeps19(f),
        rules::keeps20(f),
        rules::keeps21(f),
        rules::keeps23(f),
        rules::keeps24(f),
        rules::keeps27(f),
        rules::keeps30(f),
    ]
}

pub(crate) fn basis_outcomes(f: Facts) -> [bool; 2]
    ensures { result ≡ map (holds f) basis_rules }
{
    [rules::keeps15(f), rules::keeps29(f)]
}

pub(crate) fn document_outcomes(f: Facts) -> [bool; 6]
    ensures { result ≡ map (holds f) document_rules }
{
    [
        rules::keeps17(f),
        rules::keeps25(f),
        rules::keeps26(f),
        rules::keeps32(f),
        rules::keeps33(f),
        rules::keeps35(f),
    ]
}

pub(crate) fn day_outcomes(f: Facts) -> [bool; 4]
    ensures { result ≡ map (holds f) day_rules }
{
    [
        rules::keeps6(f),
        rules::keeps18(f),
        rules::keeps31(f),
        rules::keeps34(f),
    ]
}

// "Rules 1, 2, 3, 5, 7, 9, 10 and 12", which a reader of MT103 lines asks for (R-6).
fn lines_outcomes(f: Facts) -> [bool; 8]
    ensures { result ≡ map (holds f) of_lines }
{
    [
        rules::keeps1(f),
        rules::keeps2(f),
        rules::keeps3(f),
        rules::keeps5(f),
        rules::keeps7(f),
        rules::keeps9(f),
        rules::keeps10(f),
        rules::keeps12(f),
    ]
}

pub fn kept_lines(f: Facts) -> bool
    ensures { ((D : Dates) (s : Sheet) → Read D f s → budget s ≡ true → result ≡ every (keeps D s) of_lines) × (result ≡ every (holds f) of_lines) }
{
    all_true(&lines_outcomes(f))
}

// Each group, as completion tests it.
pub fn kept_fixed(f: Facts) -> bool
    ensures { ((D : Dates) (s : Sheet) → Read D f s → budget s ≡ true → result ≡ every (keeps D s) fixed_rules) × (result ≡ every (holds f) fixed_rules) }
{
    all_true(&fixed_outcomes(f))
}

pub fn kept_status(f: Facts) -> bool
    ensures { ((D : Dates) (s : Sheet) → Read D f s → budget s ≡ true → result ≡ every (keeps D s) status_rules) × (result ≡ every (holds f) status_rules) }
{
    all_true(&status_outcomes(f))
}

pub fn kept_basis(f: Facts) -> bool
    ensures { ((D : Dates) (s : Sheet) → Read D f s → budget s ≡ true → result ≡ every (keeps D s) basis_rules) × (result ≡ every (holds f) basis_rules) }
{
    all_true(&basis_outcomes(f))
}

pub fn kept_document(f: Facts) -> bool
    ensures { ((D : Dates) (s : Sheet) → Read D f s → budget s ≡ true → result ≡ every (keeps D s) document_rules) × (result ≡ every (holds f) document_rules) }
{
    all_true(&document_outcomes(f))
}

pub fn kept_day(f: Facts) -> bool
    ensures { ((D : Dates) (s : Sheet) → Read D f s → budget s ≡ true → result ≡ every (keeps D s) day_rules) × (result ≡ every (holds f) day_rules) }
{
    all_true(&day_outcomes(f))
}
