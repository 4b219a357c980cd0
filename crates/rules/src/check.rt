// The first broken rule, in the order of testing, and the verdict on a sheet.
ghost use Rattle.std.specs.Prelude.{◌≡◌, true, [], ◌∷◌};
ghost use Rattle.sheets.specs.Sheet.{Sheet};
ghost use Rattle.sheets.specs.Working.Facts.{Read};
ghost use Rattle.sheets.specs.declared.dates.Dates.{Dates};
ghost use Rattle.rules.specs.Rules.{budget, order, basic, ahead, first_not, first_broken, rule_named};
ghost use Rattle.rules.specs.Working.Tests.{kept, holds, general_on, outcomes_on, judged_on, first_of};
ghost use Rattle.rules.specs.declared.check.Rejection.TheVariants.{Refused};
ghost use Rattle.rules.specs.Checked.{Checked};

use crate::class::{Class, class_of, is_ordinary};
use crate::groups::{
    basis_outcomes, day_outcomes, document_outcomes, fixed_outcomes, general_outcomes,
    status_outcomes,
};
use crate::rules::{RuleNumber, field_of};
use sheets::dates::{Dates, are_fit};
use sheets::facts::{Facts, facts_of};
use sheets::sheet::{Field, well_formed};
use texts::answers::Refusal;

// Why a sheet is not accepted: its first broken rule, with the field that this names, which is refusal 8; or another refusal.
#[derive(Clone, Copy, Debug, PartialEq, Eq)]
pub enum Rejection {
    Broken(Field, RuleNumber),
    Refused(Refusal),
}

// "Tested in number order", but "22 is tested ahead of 21" (R-5).
const ORDER: [u8; 35] = [
    1, 2, 3, 4, 5, 6, 7, 8, 9, 10, 11, 12, 13, 14, 15, 16, 17, 18, 19, 20, 22, 21, 23, 24, 25, 26,
    27, 28, 29, 30, 31, 32, 33, 34, 35,
];

// "In completion only 1 to 3".
const BASIC: [u8; 3] = [1, 2, 3];

// Those that a test ahead of completion asks for (R-3).
const AHEAD: [u8; 12] = [5, 6, 7, 8, 9, 11, 12, 13, 14, 16, 22, 28];

// Whether a rule is kept, by the outcomes of rules at their numbers; one past the end is.
#[tactic(auto, using(std::proofs::lemmas::Option::gets), unfolding(crate::specs::Working::Tests::kept))]
fn is_kept(outcomes: &[bool], n: u8) -> bool
    ensures { result ≡ kept outcomes.now n }
{
    outcomes.get(usize::from(n)).copied().unwrap_or(true)
}

// The first broken one of some rules.
fn first_broken(outcomes: &[bool], order: &[u8]) -> Option<RuleNumber>
    ensures { result ≡ first_of outcomes.now order.now }
{
    order
        .iter()
        .copied()
        .find(|n| !is_kept(outcomes, *n))
        .map(RuleNumber)
}

// What completion asks of a sheet's facts, in words of the sheet: the first broken one of rules 1 to 3. Here and below the answer is said of
// all facts, too, whether or not they were read of a sheet.
pub fn broken_basic(f: Facts) -> Option<RuleNumber>
    ensures { ((D : Dates) (s : Sheet) → Read D f s → result ≡ rule_named (first_broken D s basic)) × (result ≡ rule_named (first_not (kept (general_on f)) basic)) }
{
    first_broken(&general_outcomes(f), &BASIC)
}

// The outcomes of all rules, at their numbers. It is compiled into both of its callers: with a call in its place a check takes longer.
#[inline(always)]
pub(crate) fn outcomes(f: Facts) -> [bool; 36]
    ensures { result ≡ outcomes_on f }
{
    let general = general_outcomes(f);
    let fixed = fixed_outcomes(f);
    let status = status_outcomes(f);
    let basis = basis_outcomes(f);
    let document = document_outcomes(f);
    let day = day_outcomes(f);
    [
        true,
        general[1],
        general[2],
        general[3],
        general[4],
        fixed[0],
        day[0],
        fixed[1],
        fixed[2],
        fixed[3],
        status[0],
        fixed[4],
        fixed[5],
        fixed[6],
        fixed[7],
        basis[0],
        fixed[8],
        document[0],
        day[1],
        status[1],
        status[2],
        status[3],
        fixed[9],
        status[4],
        status[5],
        document[1],
        document[2],
        status[6],
        fixed[10],
        basis[1],
        status[7],
        day[2],
        document[3],
        document[4],
        day[3],
        document[5],
    ]
}

// What a test ahead of completion asks of a budget payment's facts, in words of the sheet: the first broken one of its rules. It makes no
// other outcome.
pub fn broken_ahead(f: Facts) -> Option<RuleNumber>
    ensures { ((D : Dates) (s : Sheet) → Read D f s → budget s ≡ true → result ≡ rule_named (first_broken D s ahead)) × (result ≡ rule_named (first_not (holds f) ahead)) }
{
    let always = fixed_outcomes(f);
    let given = day_outcomes(f);
    let kept = [
        true, true, true, true, true, always[0], given[0], always[1], always[2], always[3], true,
        always[4], always[5], always[6], always[7], true, always[8], true, true, true, true, true,
        always[9], true, true, true, true, true, always[10],
    ];
    first_broken(&kept, &AHEAD)
}

// What check and a writer of MT103 lines ask of a sheet's facts, in words of the sheet: the first broken rule.
pub fn broken(f: Facts) -> Option<RuleNumber>
    ensures { ((D : Dates) (s : Sheet) → Read D f s → result ≡ rule_named (first_broken D s order)) × (result ≡ rule_named (first_not (kept (judged_on f)) order)) }
{
    if is_ordinary(f) {
        return first_broken(&general_outcomes(f), &ORDER);
    }
    first_broken(&outcomes(f), &ORDER)
}

// "A well-formed sheet is accepted exactly when it keeps the rules; else the answer is the first broken rule and its field." It is
// compiled into each of its callers, as `outcomes` is.
#[inline(always)]
pub fn check(sheet: &[u8], dates: Dates) -> Result<Class, Rejection>
    ensures { Checked dates sheet.now result }
{
    if !well_formed(sheet) {
        return Err(Rejection::Refused(Refusal::Malformed));
    }
    if !are_fit(dates) {
        return Err(Rejection::Refused(Refusal::Undated));
    }
    let f = facts_of(sheet, dates);
    match broken(f) {
        Some(rule) => Err(Rejection::Broken(field_of(rule, sheet), rule)),
        None => Ok(class_of(f)),
    }
}
