// An amount of money.
ghost use Rattle.std.specs.Prelude.{◌≡◌};
ghost use Rattle.amounts.specs.Amount.{is_amount};

#[derive(Clone, Copy, Debug, PartialEq, Eq)]
pub struct Kopecks(pub u64);

// "1 to 10^12 kopecks" (R-10, R-11).
pub const MOST_KOPECKS: u64 = 1_000_000_000_000;

pub fn is_amount(amount: Kopecks) -> bool
    ensures { result ≡ is_amount amount.0 }
{
    (1 <= amount.0) & (amount.0 <= MOST_KOPECKS)
}
