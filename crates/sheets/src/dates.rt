// The order's date, the record of three dates (R-7), and which of the statuses that have a date are in force.
ghost use Rattle.std.specs.Prelude.{◌≡◌};
ghost use Rattle.sheets.specs.Dates.{day_number, dates_fit, force_of, program_dates};

use crate::forms::is_gregorian;

// A date as a number YYYYMMDD.
#[derive(Clone, Copy, Debug, PartialEq, Eq)]
pub struct Date(pub u32);

// The order's date; and the record: the first for status 32, the first for 33, the last for 02.
#[derive(Clone, Copy, Debug, PartialEq, Eq)]
pub struct Dates {
    pub order: Date,
    pub first32: Date,
    pub first33: Date,
    pub last02: Date,
}

// Whether the date allows 02, 32, 33.
#[derive(Clone, Copy)]
pub struct Force {
    pub s02: bool,
    pub s32: bool,
    pub s33: bool,
}

fn is_day_number(date: Date) -> bool
    ensures { result ≡ day_number date.0 }
{
    let n = date.0 as usize;
    let month = n / 100;
    is_gregorian(n % 100, month % 100, month / 100)
}

// What error 12 does not refuse. Most have the record that R-7 gives, whose entries are told by comparing.
pub fn are_fit(dates: Dates) -> bool
    ensures { result ≡ dates_fit dates }
{
    let given = (dates.first32.0 == 20231001)
        & ((dates.first33.0 == 20240101) & (dates.last02.0 == 20231231));
    if given {
        return is_day_number(dates.order) & (20230925 <= dates.order.0);
    }
    (is_day_number(dates.order) & (20230925 <= dates.order.0))
        & (is_day_number(dates.first32)
            & (is_day_number(dates.first33) & is_day_number(dates.last02)))
}

pub fn force_of(dates: Dates) -> Force
    ensures { result ≡ force_of dates }
{
    Force {
        s02: dates.order.0 <= dates.last02.0,
        s32: dates.first32.0 <= dates.order.0,
        s33: dates.first33.0 <= dates.order.0,
    }
}

// The dates that the program uses.
pub fn program_dates() -> Dates
    ensures { result ≡ program_dates }
{
    Dates {
        order: Date(20240101),
        first32: Date(20231001),
        first33: Date(20240101),
        last02: Date(20231231),
    }
}
