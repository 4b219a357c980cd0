// Cases of amounts, registers and payments.
use crate::fields::Fields;
use crate::written::{OK, Refused};
use amounts::amount::Kopecks;
use amounts::charge::Rate;
use amounts::part::{Days, Portion};
use payments::leave::Debited;
use registers::pool::Unpooled;
use std::io::{Result, Write};
use texts::answers::Refusal;
use texts::parts::part;

// The bank's charge for an amount, by a rate, a least and a greatest charge, each in eight bytes.
pub(crate) fn charge<W: Write>(mut fields: Fields<'_>, out: &mut W) -> Result<()> {
    let amount = Kopecks(fields.u64());
    let rate = Rate(fields.u64());
    let least = Kopecks(fields.u64());
    let greatest = Kopecks(fields.u64());
    match amounts::charge::charge(amount, rate, least, greatest) {
        Ok(charge) => write!(out, "{OK} {}", charge.0),
        Err(refusal) => write!(out, "{}", Refused(refusal)),
    }
}

// The part of an amount of eight bytes for days of a year, each in four.
pub(crate) fn part_of_year<W: Write>(mut fields: Fields<'_>, out: &mut W) -> Result<()> {
    let amount = Kopecks(fields.u64());
    let days = Days(fields.u32());
    let year = Days(fields.u32());
    match amounts::part::part(amount, days, year) {
        Ok(Portion { kopecks, remainder }) => write!(out, "{OK} {} {}", kopecks.0, remainder.0),
        Err(refusal) => write!(out, "{}", Refused(refusal)),
    }
}

// An amount of eight bytes shared in a year of four among periods of four each: 1, 2, 4 or 12, or for any other case 13 of 1 day.
pub(crate) fn shares<W: Write>(bytes: &[u8], out: &mut W) -> Result<()> {
    let mut fields = Fields::of(bytes);
    let amount = Kopecks(fields.u64());
    let year = Days(fields.u32());
    match bytes.len() {
        16 => shares_of(amount, year, &fields.u32s::<1>(), out),
        20 => shares_of(amount, year, &fields.u32s::<2>(), out),
        28 => shares_of(amount, year, &fields.u32s::<4>(), out),
        60 => shares_of(amount, year, &fields.u32s::<12>(), out),
        _ => shares_of(amount, year, &[1; 13], out),
    }
}

// `ok` or the refusal, and the twelve places, which held 7.
fn shares_of<W: Write>(amount: Kopecks, year: Days, periods: &[u32], out: &mut W) -> Result<()> {
    let mut places = [7; 12];
    match amounts::shares::shares(amount, year, periods, &mut places) {
        Ok(()) => write!(out, "ok")?,
        Err(refusal) => write!(out, "{}", Refused(refusal))?,
    }
    for place in &places {
        write!(out, " {place}")?;
    }
    Ok(())
}

// A register is pooled, for the order's amount of eight bytes, into an output that is a byte short where the byte behind it is 1.
// Not inlined, so that other cases need no room for the outputs.
#[inline(never)]
pub(crate) fn pool<W: Write>(mut fields: Fields<'_>, out: &mut W) -> Result<()> {
    let amount = Kopecks(fields.u64());
    if fields.u8() == 1 {
        pool_into(fields.rest, amount, &mut [b'.'; 9999], out)
    } else {
        pool_into(fields.rest, amount, &mut [b'.'; 10000], out)
    }
}

// The answer, and the places of the first four lines of the output and of the last, which held dots.
fn pool_into<W: Write>(
    register: &[u8],
    amount: Kopecks,
    output: &mut [u8],
    out: &mut W,
) -> Result<()> {
    match registers::pool::pool(register, amount, output) {
        Ok(lines) => write!(out, "{OK} {lines}")?,
        Err(Unpooled::Differs(difference)) => {
            write!(out, "{}{}", Refused(Refusal::Differs), shown(difference))?;
        }
        Err(Unpooled::Refused(refusal)) => write!(out, "{}", Refused(refusal))?,
    }
    for line in output.chunks(20).take(4) {
        write_line(line, out)?;
    }
    write_line(part(output, 9980, 10000), out)
}

// A difference, behind a space: 1 and -1 as they are, of others which sum is more.
fn shown(difference: i64) -> &'static str {
    match difference {
        1 => " 1",
        -1 => " -1",
        d if d < 0 => " less",
        _ => " more",
    }
}

// A pooled line as INN and kopecks.
fn write_line<W: Write>(line: &[u8], out: &mut W) -> Result<()> {
    let mut fields = Fields::of(line);
    out.write_all(b" ")?;
    out.write_all(fields.take(12))?;
    write!(out, " {}", fields.u64())
}

// Which payments leave a balance of eight bytes: four arrival numbers of four bytes, four amounts of eight, then the priorities; of 65
// priorities payments that all arrive as number 1 with 1 kopeck.
pub(crate) fn leave<W: Write>(mut fields: Fields<'_>, out: &mut W) -> Result<()> {
    let balance = Kopecks(fields.u64());
    let arrivals = fields.u32s::<4>();
    let amounts = fields.u64s::<4>();
    let priorities = fields.rest;
    if priorities.len() == 65 {
        leave_of(balance, priorities, &[1; 65], &[1; 65], out)
    } else {
        leave_of(balance, priorities, &arrivals, &amounts, out)
    }
}

// The answer, the first six of the places and the last, which held 7.
fn leave_of<W: Write>(
    balance: Kopecks,
    priorities: &[u8],
    arrivals: &[u32],
    amounts: &[u64],
    out: &mut W,
) -> Result<()> {
    let mut places = [7; 64];
    match payments::leave::leave(balance, priorities, arrivals, amounts, &mut places) {
        Ok(Debited { paid, sum, left }) => write!(out, "{OK} {paid} {} {}", sum.0, left.0)?,
        Err(refusal) => write!(out, "{}", Refused(refusal))?,
    }
    for place in &places[..6] {
        write!(out, " {place}")?;
    }
    write!(out, " {}", places[63])
}
