// The search for the first filling that keeps the rules.
ghost use Rattle.std.specs.Prelude.{◌≡◌, ◌≤◌, ◌*◌, length};
ghost use Rattle.texts.specs.Texts.{blank};
ghost use Rattle.sheets.specs.Sheet.{Sheet, text_of};
ghost use Rattle.sheets.specs.Working.Entries.{basis_count, zero_count};
ghost use Rattle.sheets.specs.Dates.{status_count};
ghost use Rattle.sheets.specs.declared.dates.Dates.{Dates};
ghost use Rattle.sheets.specs.Working.Facts.{Read};
ghost use Rattle.fillings.specs.Fillings.{width};
ghost use Rattle.orders.specs.Working.Search.{Payment};
ghost use Rattle.orders.specs.Working.Quick.{KeepsFixed, rest_picks};
ghost use Rattle.orders.specs.Working.Found.{found_of, pace_of};

use rules::groups::{kept_basis, kept_day, kept_document, kept_fixed, kept_status};
use sheets::entries::{
    BASIS_COUNT, ZERO_COUNT, blank_basis, blank_day, blank_document, blank_status, fill_basis,
    fill_day, fill_document, fill_status, status_count,
};
use sheets::facts::Facts;

fn width_of(blank: bool, listed: usize) -> usize
    requires { 1 ≤ listed }
    ensures { (result ≡ width blank listed) × (result ≤ listed) }
{
    if blank { listed } else { 1 }
}

// Places in the lists of 101, 106, 108 and 109.
#[derive(Clone, Copy)]
pub struct Pick {
    pub status: usize,
    pub basis: usize,
    pub document: usize,
    pub day: usize,
}

// Where the entries of the first filling that keeps the rules stand, the count of fillings up to and including it, and how many statuses up
// to its own were skipped; where none keeps them, the count of all, and how many of all were skipped.
#[derive(Clone, Copy)]
pub struct Found {
    pub pick: Option<Pick>,
    pub count: usize,
    pub skipped: usize,
}

// What a status comes to: how many entries of 106 are gone through, and how many fillings and statuses are passed over.
#[derive(Clone, Copy)]
struct Pace {
    bases: usize,
    fillings: usize,
    statuses: usize,
}

// "skips all fillings of a status once a rule that reads neither 106, 108 nor 109 .. fails for it"; they are counted.
fn pace_of(kept: bool, bases: usize, fillings: usize) -> Pace
    ensures { result ≡ pace_of kept bases fillings }
{
    if kept {
        Pace {
            bases,
            fillings: 0,
            statuses: 0,
        }
    } else {
        Pace {
            bases: 0,
            fillings,
            statuses: 1,
        }
    }
}

// How many fillings a status has.
fn fillings_of(f: Facts) -> usize
    ensures { ((D : Dates) (s : Sheet) → Read D f s → result ≡ length (rest_picks s)) × (result ≤ basis_count * (zero_count * zero_count)) }
{
    let bases = width_of(blank_basis(f), BASIS_COUNT);
    let documents = width_of(blank_document(f), ZERO_COUNT);
    let days = width_of(blank_day(f), ZERO_COUNT);
    bases * (documents * days)
}

// How many statuses are gone through.
fn statuses_of(f: Facts) -> usize
    ensures { ((D : Dates) (s : Sheet) → Read D f s → result ≡ width (blank (text_of s 6)) (status_count D)) × (result ≤ 23) }
{
    width_of(blank_status(f), status_count(f))
}

// "Order: 101 varies slowest, then 106, 108, 109". Each level tests the rules that read its field and none that varies faster, once; the
// others are kept.
fn walk_kept(f: Facts) -> Found
    requires { KeepsFixed f }
    ensures { (D : Dates) (s : Sheet) → Payment D f s → result ≡ found_of D s }
{
    let mut count: usize = 0;
    let mut skipped: usize = 0;
    let mut pick = None;
    let n101 = statuses_of(f);
    let n106 = width_of(blank_basis(f), BASIS_COUNT);
    let n108 = width_of(blank_document(f), ZERO_COUNT);
    let n109 = width_of(blank_day(f), ZERO_COUNT);
    let each = fillings_of(f);
    'statuses: for a in 0..n101 {
        let f1 = fill_status(f, a);
        let kept1 = kept_status(f1);
        let pace = pace_of(kept1, n106, each);
        count += pace.fillings;
        skipped += pace.statuses;
        'bases: for b in 0..pace.bases {
            let f2 = fill_basis(f1, f, b);
            let kept2 = kept1 & kept_basis(f2);
            'documents: for c in 0..n108 {
                let f3 = fill_document(f2, f, c);
                let kept3 = kept2 & kept_document(f3);
                'days: for d in 0..n109 {
                    let f4 = fill_day(f3, f, d);
                    let kept4 = kept3 & kept_day(f4);
                    count += 1;
                    if kept4 {
                        pick = Some(Pick {
                            status: a,
                            basis: b,
                            document: c,
                            day: d,
                        });
                        break 'statuses;
                    }
                }
            }
        }
    }
    Found {
        pick,
        count,
        skipped,
    }
}

// Where a rule is broken that has one verdict for all fillings, as those of the test ahead have (R-3), no filling is looked at: every status is
// skipped.
pub(crate) fn search(f: Facts) -> Found
    ensures { (D : Dates) (s : Sheet) → Payment D f s → result ≡ found_of D s }
{
    if !kept_fixed(f) {
        let statuses = statuses_of(f);
        return Found {
            pick: None,
            count: statuses * fillings_of(f),
            skipped: statuses,
        };
    }
    walk_kept(f)
}
