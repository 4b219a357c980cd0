// What completion and the test ahead of it begin with: whether a sheet is a budget payment.
ghost use Rattle.orders.specs.Working.Paying.{Pays};

use rules::check::{Rejection, broken_basic};
use rules::class::is_budget;
use rules::rules::field_of;
use sheets::dates::Dates;
use sheets::facts::{Facts, facts_of};
use sheets::sheet::SHEET_SIZE;
use texts::answers::Refusal;

// The facts of a budget payment; 8 with the first broken of rules 1 to 3, or 9. Compiled into its callers, so that the facts are not copied.
#[inline(always)]
pub(crate) fn facts_of_payment(sheet: &[u8; SHEET_SIZE], dates: Dates) -> Result<Facts, Rejection>
    ensures { Pays dates sheet.now result }
{
    let facts = facts_of(sheet, dates);
    if let Some(rule) = broken_basic(facts) {
        return Err(Rejection::Broken(field_of(rule, sheet), rule));
    }
    if !is_budget(facts) {
        return Err(Rejection::Refused(Refusal::NotBudget));
    }
    Ok(facts)
}
