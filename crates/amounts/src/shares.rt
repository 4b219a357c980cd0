// A year's amount shared among periods, by days (R-11).
ghost use Rattle.std.specs.Prelude.{◌≡◌, ◌≤◌, true, length};
ghost use Rattle.amounts.specs.Amount.{is_amount};
ghost use Rattle.amounts.specs.Part.{is_year};
ghost use Rattle.amounts.specs.Shares.{total, all_some, are_periods, sharable, places_of, Shares};

use crate::amount::{Kopecks, is_amount};
use crate::part::{Days, is_year, quotient_of};
use texts::answers::Refusal;

// "of 12 places for shares"
pub const PLACES: usize = 12;

// "periods of at least one day"
fn all_some(periods: &[u32]) -> bool
    ensures { result ≡ all_some periods.now }
{
    periods.iter().all(|days| 1 <= *days)
}

// The days of up to 12 periods, which 64 bits hold.
fn total_of(periods: &[u32]) -> u64
    requires { length periods.now ≤ 12 }
    ensures { result ≡ total periods.now }
{
    periods.iter().map(|days| u64::from(*days)).sum()
}

// "1 to 12 periods that together make the year"
fn are_periods(year: u32, periods: &[u32]) -> bool
    ensures { result ≡ are_periods year periods.now }
{
    !periods.is_empty()
        && periods.len() <= PLACES
        && all_some(periods)
        && total_of(periods) == u64::from(year)
}

fn is_sharable(amount: Kopecks, year: Days, periods: &[u32]) -> bool
    ensures { result ≡ sharable amount.0 year.0 periods.now }
{
    is_amount(amount) & is_year(year) & are_periods(year.0, periods)
}

// "each share is the difference of running quotients; those past the last period are 0"
fn shares_of(amount: u64, year: u64, periods: &[u32]) -> [u64; 12]
    requires { (is_amount amount ≡ true) × (is_year year ≡ true) × (are_periods year periods.now ≡ true) }
    ensures { result ≡ places_of amount year periods.now }
{
    let mut places = [0u64; 12];
    let mut days: u64 = 0;
    let mut before: u64 = 0;
    for (i, period) in periods.iter().enumerate() {
        days += u64::from(*period);
        let running = quotient_of(amount, days, year);
        places[i] = running - before;
        before = running;
    }
    places
}

// The shares are in the places, or 15.
pub fn shares(
    amount: Kopecks,
    year: Days,
    periods: &[u32],
    places: &mut [u64; 12],
) -> Result<(), Refusal>
    ensures { Shares amount.0 year.0 periods.now places.old result places.new }
{
    if !is_sharable(amount, year, periods) {
        return Err(Refusal::BadPart);
    }
    *places = shares_of(amount.0, u64::from(year.0), periods);
    Ok(())
}
