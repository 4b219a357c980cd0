// Completion, with how many statuses the search passed over whole (R-14).
ghost use Rattle.std.specs.Prelude.{◌≡◌, ℕ, List, length, Ok, Err};
ghost use Rattle.orders.specs.Skipping.{Quickens};
ghost use Rattle.orders.specs.Working.Paying.{Ready};

use crate::complete::{Filled, Incomplete};
use crate::fill::{fill_found, fill_zeros, filled_set};
use crate::payment::facts_of_payment;
use crate::search::search;
use drafts::draft::{put_sheet, well_formed};
use sheets::dates::{Dates, are_fit};
use sheets::facts::Facts;
use sheets::sheet::SHEET_SIZE;
use texts::answers::Refusal;
use texts::buffers::put;

// What `complete` returns; and, with a sheet or 10, how many statuses were skipped, else 0.
#[derive(Clone, Copy, Debug, PartialEq, Eq)]
pub struct Quickened {
    pub completed: Result<Filled, Incomplete>,
    pub skipped: usize,
}

// The facts of a draft that can be completed, into a buffer of a size; its sheet goes into the work. "0" goes into the fields that take
// nothing else first, and leaves 14, 15 and 17, so that the facts are read once. Compiled into its caller, so that they are not copied.
#[inline(always)]
fn ready(
    draft: &[u8],
    size: usize,
    dates: Dates,
    work: &mut [u8; SHEET_SIZE],
) -> Result<Facts, Incomplete>
    ensures { Ready dates draft.now size result work.new }
{
    put_sheet(draft, work);
    if !well_formed(draft) {
        return Err(Incomplete::Refused(Refusal::Malformed));
    }
    if size != SHEET_SIZE {
        return Err(Incomplete::Refused(Refusal::WrongSize));
    }
    if !are_fit(dates) {
        return Err(Incomplete::Refused(Refusal::Undated));
    }
    fill_zeros(work);
    let facts = facts_of_payment(work, dates)?;
    Ok(facts)
}

pub fn quick(draft: &[u8], sheet: &mut [u8], dates: Dates) -> Quickened
    ensures { Quickens dates draft.now sheet.old result sheet.new }
{
    let mut work = [0u8; SHEET_SIZE];
    let facts = match ready(draft, sheet.len(), dates, &mut work) {
        Ok(facts) => facts,
        Err(refused) => {
            return Quickened {
                completed: Err(refused),
                skipped: 0,
            };
        }
    };
    let found = search(facts);
    let completed = match found.pick {
        None => Err(Incomplete::Impossible(found.count)),
        Some(pick) => {
            let set = filled_set(draft);
            let filled = Filled {
                count: found.count,
                set,
                ones: set.count_ones(),
            };
            fill_found(&mut work, pick, dates, set);
            put(sheet, 0, &work);
            Ok(filled)
        }
    };
    Quickened {
        completed,
        skipped: found.skipped,
    }
}
