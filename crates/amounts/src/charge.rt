// The bank's charge (R-10).
ghost use Rattle.std.specs.Prelude.{◌≡◌, ◌≤◌};
ghost use Rattle.amounts.specs.Charge.{chargeable, rounded, raised_to, lowered_to, Charges};

use crate::amount::{Kopecks, MOST_KOPECKS, is_amount};
use texts::answers::Refusal;

// In hundredths of a percent.
#[derive(Clone, Copy, Debug, PartialEq, Eq)]
pub struct Rate(pub u64);

// "a rate of 0 to 10,000 hundredths of a percent"
const MOST_RATE: u64 = 10_000;

fn is_chargeable(amount: Kopecks, rate: Rate, least: Kopecks, greatest: Kopecks) -> bool
    ensures { result ≡ chargeable amount.0 rate.0 least.0 greatest.0 }
{
    is_amount(amount)
        & (rate.0 <= MOST_RATE)
        & (greatest.0 <= MOST_KOPECKS)
        & (least.0 <= greatest.0)
}

// "amount times rate over 10,000, halves upward to the whole kopeck"
fn round_half_up(amount: u64, rate: u64) -> u64
    requires { (amount ≤ 1000000000000) × (rate ≤ 10000) }
    ensures { result ≡ rounded amount rate }
{
    (amount * rate + 5_000) / 10_000
}

// "raised to the least"
fn raise(charge: u64, least: u64) -> u64
    ensures { result ≡ raised_to least charge }
{
    charge.max(least)
}

// "then lowered to the greatest"
fn lower(charge: u64, greatest: u64) -> u64
    ensures { result ≡ lowered_to greatest charge }
{
    charge.min(greatest)
}

// The charge, or 14.
pub fn charge(
    amount: Kopecks,
    rate: Rate,
    least: Kopecks,
    greatest: Kopecks,
) -> Result<Kopecks, Refusal>
    ensures { Charges amount.0 rate.0 least.0 greatest.0 result }
{
    if !is_chargeable(amount, rate, least, greatest) {
        return Err(Refusal::BadCharge);
    }
    let raised = raise(round_half_up(amount.0, rate.0), least.0);
    Ok(Kopecks(lower(raised, greatest.0)))
}
