// Texts of digits, and the numbers that they are.
ghost use Rattle.std.specs.Prelude.{◌≡◌, ◌*◌, ◌≤◌, ◌<◌, ◌^◌, length};
ghost use Rattle.texts.specs.Texts.{every, digit, digits, digits_not_zero, digits_not_00, value_of, value, number, weighted, between};

use crate::comparisons::{all_are, begins_with};
use crate::parts::{at, part};

fn is_digit(b: u8) -> bool
    ensures { result ≡ digit b }
{
    b.is_ascii_digit()
}

fn all_digits(t: &[u8]) -> bool
    ensures { result ≡ every digit t.now }
{
    let mut good = true;
    for b in t {
        good = good & is_digit(*b);
    }
    good
}

pub fn has_digits(t: &[u8], n: usize) -> bool
    ensures { result ≡ digits n t.now }
{
    t.len() == n && all_digits(t)
}

pub fn has_digits_not_zero(t: &[u8], n: usize) -> bool
    ensures { result ≡ digits_not_zero n t.now }
{
    has_digits(t, n) && !all_are(t, b'0')
}

pub fn has_digits_not_00(t: &[u8], n: usize) -> bool
    ensures { result ≡ digits_not_00 n t.now }
{
    has_digits(t, n) && !begins_with(t, b"00")
}

pub fn digit_value(b: u8) -> u8
    ensures { (result ≡ value_of b) × (result ≤ 9) }
{
    if is_digit(b) { b - b'0' } else { 0 }
}

// The number that the digits of a short text make.
fn value_of(t: &[u8]) -> usize
    requires { length t.now ≤ 18 }
    ensures { (result ≡ value 0 t.now) × (result < 10 ^ length t.now) }
{
    let mut n: usize = 0;
    for b in t {
        n = n * 10 + usize::from(digit_value(*b));
    }
    n
}

// The number of N digits; the power of ten where the text is not so many.
pub fn number<const N: usize>(t: &[u8]) -> usize
    ensures value { N ≤ 18 → result ≡ number N t.now }
    ensures bound { N ≤ 18 → result ≤ 10 ^ N }
{
    if 18 < N {
        return 0;
    }
    if !has_digits(t, N) {
        return usize::pow(10, N as u32);
    }
    value_of(t)
}

// A digit times its weight.
fn weigh(weight: u8, b: u8) -> usize
    ensures { (result ≡ weight * value_of b) × (result ≤ 2295) }
{
    usize::from(weight) * usize::from(digit_value(b))
}

// The sum of a text's digits, each times its weight; 25 weights count, as many as a text has bytes.
pub fn weighted_sum(weights: &[u8], t: &[u8]) -> usize
    ensures { result ≡ weighted (between weights.now 0 25) t.now }
{
    let first = part(weights, 0, 25);
    let mut sum: usize = 0;
    for (i, weight) in first.iter().enumerate() {
        sum += weigh(*weight, at(t, i));
    }
    sum
}
