// The forms of texts that several rules ask for.
ghost use Rattle.std.specs.Prelude.{◌≡◌};
ghost use Rattle.texts.specs.Texts.{every, between, digits, digits_not_zero};
ghost use Rattle.sheets.specs.Forms.{uin, check_digit, inn10, inn12, digit_or_capital, kpp, letter_pair, person, allowed, document, snils_check, snils, pension, leap, month_days, gregorian, date};
ghost use Rattle.sheets.specs.Working.Facts.{wanted_by};

use texts::comparisons::{begins_with, equals, is_among};
use texts::digits::{
    digit_value, has_digits, has_digits_not_00, has_digits_not_zero, number, weighted_sum,
};
use texts::parts::{at, part};

// The number of a status.
#[derive(Clone, Copy)]
pub struct Status(pub usize);

// The form of 60 that a status wants (rule 23).
#[derive(Clone, Copy)]
pub enum Wanted {
    Any,
    Inn,
    Ten,
    Twelve,
    Zero,
}

// УВ, ИЛ, ПБ, ТГ, ТБ, ТД, ПВ, ИН, ПК, КЭ.
pub(crate) const LETTER_PAIR_COUNT: usize = 10;

pub(crate) const LETTER_PAIRS: [[u8; 2]; LETTER_PAIR_COUNT] = [
    [0xD3, 0xC2],
    [0xC8, 0xCB],
    [0xCF, 0xC1],
    [0xD2, 0xC3],
    [0xD2, 0xC1],
    [0xD2, 0xC4],
    [0xCF, 0xC2],
    [0xC8, 0xCD],
    [0xCF, 0xCA],
    [0xCA, 0xDD],
];

const PERSON_TYPES: [usize; 21] = [
    1, 2, 3, 4, 5, 6, 7, 8, 9, 10, 11, 12, 13, 14, 22, 24, 25, 26, 28, 29, 30,
];

// So many digits, as a BIK, an account or an office has: each number gets code of its own, made for it.
pub(crate) fn is_digits<const N: usize>(t: &[u8]) -> bool
    ensures { result ≡ digits N t.now }
{
    has_digits(t, N)
}

// The same not all zero, as a KBK or an OKTMO code has.
pub(crate) fn is_digits_not_zero<const N: usize>(t: &[u8]) -> bool
    ensures { result ≡ digits_not_zero N t.now }
{
    has_digits_not_zero(t, N)
}

pub(crate) fn is_uin(t: &[u8]) -> bool
    ensures { result ≡ uin t.now }
{
    is_digits_not_zero::<20>(t) | is_digits_not_zero::<25>(t)
}

const WEIGHTS_10: [u8; 9] = [2, 4, 10, 3, 5, 9, 4, 6, 8];

const WEIGHTS_11: [u8; 10] = [7, 2, 4, 10, 3, 5, 9, 4, 6, 8];

const WEIGHTS_12: [u8; 11] = [3, 7, 2, 4, 10, 3, 5, 9, 4, 6, 8];

// The digit behind those that have a weight is the one that they give (R-4).
fn has_check_digit(t: &[u8], weights: &[u8]) -> bool
    ensures { result ≡ check_digit (between weights.now 0 25) t.now }
{
    let place = part(weights, 0, 25).len();
    usize::from(digit_value(at(t, place))) == weighted_sum(weights, t) % 11 % 10
}

pub fn is_inn10(t: &[u8]) -> bool
    ensures { result ≡ inn10 t.now }
{
    let plain = has_digits_not_00(t, 10);
    plain && has_check_digit(t, &WEIGHTS_10)
}

pub fn is_inn12(t: &[u8]) -> bool
    ensures { result ≡ inn12 t.now }
{
    let plain = has_digits_not_00(t, 12);
    plain && (has_check_digit(t, &WEIGHTS_11) & has_check_digit(t, &WEIGHTS_12))
}

fn is_digit_or_capital(b: u8) -> bool
    ensures { result ≡ digit_or_capital b }
{
    b.is_ascii_digit() | b.is_ascii_uppercase()
}

// Most have no letter, and are told by their nine digits.
pub fn is_kpp(t: &[u8]) -> bool
    ensures { result ≡ kpp t.now }
{
    if has_digits(t, 9) {
        return !begins_with(t, b"00");
    }
    if t.len() != 9 {
        return false;
    }
    let middle = is_digit_or_capital(at(t, 4)) & is_digit_or_capital(at(t, 5));
    let sides = has_digits(part(t, 0, 4), 4) & (middle & has_digits(part(t, 6, 9), 3));
    !begins_with(t, b"00") & sides
}

pub(crate) fn is_letter_pair(t: &[u8]) -> bool
    ensures { result ≡ letter_pair t.now }
{
    LETTER_PAIRS.iter().any(|pair| equals(t, pair))
}

// Most have no ";" at its place, and are told by that.
pub(crate) fn is_person(t: &[u8]) -> bool
    ensures { result ≡ person t.now }
{
    ((4 <= t.len()) & equals(part(t, 2, 3), b";"))
        && is_among(number::<2>(part(t, 0, 2)), &PERSON_TYPES)
}

fn is_allowed(b: u8) -> bool
    ensures { result ≡ allowed b }
{
    (((33 <= b) & (b <= 126)) | ((192 <= b) & (b <= 255))) & !(b == 45)
}

fn all_allowed(t: &[u8]) -> bool
    ensures { result ≡ every allowed t.now }
{
    t.iter().all(|b| is_allowed(*b))
}

pub(crate) fn is_document(t: &[u8]) -> bool
    ensures { result ≡ document t.now }
{
    let sized = (1 <= t.len()) & (t.len() <= 15);
    (sized & all_allowed(t)) & (!equals(part(t, 2, 3), b";") | is_person(t))
}

const SNILS_WEIGHTS: [u8; 9] = [9, 8, 7, 6, 5, 4, 3, 2, 1];

// The two last digits of a pension number, by its first nine; 100 is written 00.
fn snils_check(t: &[u8]) -> usize
    ensures { result ≡ snils_check t.now }
{
    weighted_sum(&SNILS_WEIGHTS, t) % 101 % 100
}

fn is_snils(t: &[u8]) -> bool
    ensures { result ≡ snils t.now }
{
    if !has_digits(t, 11) {
        return false;
    }
    let nine = part(t, 0, 9);
    let low = number::<9>(nine) <= 1001998;
    low | (number::<2>(part(t, 9, 11)) == snils_check(nine))
}

// Rule 35 of a text. One that is no identifier of type 14 pays one comparison.
pub(crate) fn is_pension(t: &[u8]) -> bool
    ensures { result ≡ pension t.now }
{
    if !begins_with(t, b"14;") {
        return true;
    }
    is_snils(part(t, 3, 25))
}

fn is_leap(y: usize) -> bool
    ensures { result ≡ leap y }
{
    (y % 4 == 0) & (!(y % 100 == 0) | (y % 400 == 0))
}

fn month_days(m: usize, y: usize) -> usize
    ensures { result ≡ month_days m y }
{
    match m {
        4 | 6 | 9 | 11 => 30,
        2 => if is_leap(y) { 29 } else { 28 },
        _ => 31,
    }
}

// No month has fewer than 28 days.
pub(crate) fn is_gregorian(d: usize, m: usize, y: usize) -> bool
    ensures { result ≡ gregorian d m y }
{
    let usual = ((1900 <= y) & (y <= 2099)) & ((1 <= m) & (m <= 12));
    if d <= 28 {
        return usual & (1 <= d);
    }
    usual & (d <= month_days(m, y))
}

pub(crate) fn is_date(t: &[u8]) -> bool
    ensures { result ≡ date t.now }
{
    if t.len() != 10 {
        return false;
    }
    let points = equals(part(t, 2, 3), b".") & equals(part(t, 5, 6), b".");
    let d = number::<2>(part(t, 0, 2));
    let m = number::<2>(part(t, 3, 5));
    let y = number::<4>(part(t, 6, 10));
    points & is_gregorian(d, m, y)
}

// "Status as a number, matched to the wanted INN form".
pub(crate) fn wanted_by(status: Status) -> Wanted
    ensures { result ≡ wanted_by status.0 }
{
    let n = status.0;
    match n {
        1 | 32 => Wanted::Inn,
        6 | 7 => Wanted::Ten,
        17 => Wanted::Twelve,
        30 => Wanted::Zero,
        _ => Wanted::Any,
    }
}
