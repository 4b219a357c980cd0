// Part of a year's amount, by days (R-11).
ghost use Rattle.std.specs.Prelude.{◌≡◌, ◌≤◌, ◌<◌};
ghost use Rattle.amounts.specs.Part.{is_year, partable, quotient_of, remainder_of, Parts};

use crate::amount::{Kopecks, is_amount};
use texts::answers::Refusal;

#[derive(Clone, Copy, Debug, PartialEq, Eq)]
pub struct Days(pub u32);

// What is left of a kopeck, in parts of which the year's length makes one.
#[derive(Clone, Copy, Debug, PartialEq, Eq)]
pub struct Remainder(pub u32);

// The part of the days: whole kopecks, and the remainder.
#[derive(Clone, Copy, Debug, PartialEq, Eq)]
pub struct Portion {
    pub kopecks: Kopecks,
    pub remainder: Remainder,
}

// "a year length other than 365 or 366"
pub fn is_year(year: Days) -> bool
    ensures { result ≡ is_year year.0 }
{
    (year.0 == 365) | (year.0 == 366)
}

fn is_partable(amount: Kopecks, days: Days, year: Days) -> bool
    ensures { result ≡ partable amount.0 days.0 year.0 }
{
    is_amount(amount) & is_year(year) & (1 <= days.0) & (days.0 <= year.0)
}

// "amount × days / year length, in whole kopecks"
pub(crate) fn quotient_of(amount: u64, days: u64, year: u64) -> u64
    requires { (amount ≤ 1000000000000) × (days ≤ 366) × (0 < year) }
    ensures { result ≡ quotient_of amount days year }
{
    amount * days / year
}

// "with the remainder"
fn remainder_of(amount: u64, days: u64, year: u64) -> u64
    requires { (amount ≤ 1000000000000) × (days ≤ 366) × (0 < year) }
    ensures { (result ≡ remainder_of amount days year) × (result < year) }
{
    amount * days % year
}

// The portion, or 15.
pub fn part(amount: Kopecks, days: Days, year: Days) -> Result<Portion, Refusal>
    ensures { Parts amount.0 days.0 year.0 result }
{
    if !is_partable(amount, days, year) {
        return Err(Refusal::BadPart);
    }
    let d = u64::from(days.0);
    let y = u64::from(year.0);
    let whole = quotient_of(amount.0, d, y);
    let rest = remainder_of(amount.0, d, y);
    Ok(Portion {
        kopecks: Kopecks(whole),
        remainder: Remainder(rest as u32),
    })
}
