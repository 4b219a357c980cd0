// A test of a draft ahead of completion: a rule that all its fillings break (R-3).
ghost use Rattle.sheets.specs.declared.dates.Dates.{Dates};
ghost use Rattle.orders.specs.Pretest.{Pretests};

use crate::fill::{fill_picked, fill_zeros};
use crate::payment::facts_of_payment;
use crate::search::Pick;
use drafts::draft::{put_sheet, well_formed};
use rules::check::{Rejection, broken_ahead};
use rules::rules::{RuleNumber, field_of};
use sheets::dates::program_dates;
use sheets::facts::facts_of;
use sheets::sheet::{Field, SHEET_SIZE};
use texts::answers::Refusal;

// A rule that all fillings break, with its field.
#[derive(Clone, Copy, Debug, PartialEq, Eq)]
pub struct Named {
    pub field: Field,
    pub rule: RuleNumber,
}

// The first of its rules that all fillings break, or none; 8; 1 or 9. A rule of the test has one verdict for all fillings, whatever the dates
// allow, so that the first filling at some dates is looked at.
pub fn pretest(draft: &[u8]) -> Result<Option<Named>, Rejection>
    ensures { (D : Dates) → Pretests D draft.now result }
{
    let mut work = [0u8; SHEET_SIZE];
    put_sheet(draft, &mut work);
    if !well_formed(draft) {
        return Err(Rejection::Refused(Refusal::Malformed));
    }
    fill_zeros(&mut work);
    let dates = program_dates();
    facts_of_payment(&work, dates)?;
    let first = Pick {
        status: 0,
        basis: 0,
        document: 0,
        day: 0,
    };
    fill_picked(&mut work, first, dates);
    match broken_ahead(facts_of(&work, dates)) {
        None => Ok(None),
        Some(rule) => Ok(Some(Named {
            field: field_of(rule, &work),
            rule,
        })),
    }
}
