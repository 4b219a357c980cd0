// All rules that a sheet breaks, as a set: bit n for rule n.
ghost use Rattle.std.specs.Prelude.{◌≡◌, ◌≤◌, length};
ghost use Rattle.sheets.specs.Sheet.{Sheet};
ghost use Rattle.sheets.specs.Working.Facts.{Read};
ghost use Rattle.sheets.specs.declared.dates.Dates.{Dates};
ghost use Rattle.rules.specs.AllBroken.{broken_set, BreaksRules};
ghost use Rattle.rules.specs.Working.Bits.{failed_bits};

use crate::check::outcomes;
use crate::class::is_ordinary;
use crate::groups::general_outcomes;
use sheets::dates::{Dates, are_fit};
use sheets::facts::{Facts, facts_of};
use sheets::sheet::well_formed;
use texts::answers::Refusal;

// The number that has bit n set exactly if outcome n is false.
fn failed_bits(outcomes: &[bool]) -> u64
    requires { length outcomes.now ≤ 64 }
    ensures { result ≡ failed_bits outcomes.now }
{
    outcomes
        .iter()
        .rev()
        .fold(0, |set, kept| (set << 1) | u64::from(!*kept))
}

// All broken rules of a sheet, by its facts. For an ordinary order only the general rules count.
fn all_broken(f: Facts) -> u64
    ensures { (D : Dates) (s : Sheet) → Read D f s → result ≡ broken_set D s }
{
    if is_ordinary(f) {
        return failed_bits(&general_outcomes(f));
    }
    failed_bits(&outcomes(f))
}

// The rules that a sheet breaks, where `check` names the first of them: the set, which is empty where the sheet would be accepted; or 1 or 12.
pub fn broken_rules(sheet: &[u8], dates: Dates) -> Result<u64, Refusal>
    ensures { BreaksRules dates sheet.now result }
{
    if !well_formed(sheet) {
        return Err(Refusal::Malformed);
    }
    if !are_fit(dates) {
        return Err(Refusal::Undated);
    }
    let f = facts_of(sheet, dates);
    Ok(all_broken(f))
}
