// Writing the lines of MT103.
ghost use Rattle.std.specs.Prelude.{◌+◌, ◌≤◌, length};
ghost use Rattle.texts.specs.Working.Writing.{Wrote};
ghost use Rattle.swift.specs.Lines.{ended, seven_in, lines_of};
ghost use Rattle.swift.specs.Working.Places.{joined, lines_size};
ghost use Rattle.swift.specs.Promises.{WritesLines};

use rules::check::{Rejection, broken};
use rules::class::is_class_a;
use rules::rules::field_of;
use sheets::dates::{Dates, are_fit};
use sheets::facts::facts_of;
use sheets::sheet::{text, well_formed};
use texts::answers::Refusal;
use texts::buffers::put;

// The length of the lines without field 22: of an accepted sheet of class A all other texts have one length.
const SIZE_WITHOUT_CODE: usize = 112;

// "Each ended by a line feed": writes pieces one behind another from a place on, a line feed behind them, and answers the place behind it.
fn put_line(out: &mut [u8], at: usize, pieces: &[&[u8]]) -> usize
    requires { at + length (joined pieces.now) + 1 ≤ length out.old }
    ensures { Wrote out.old at (ended (joined pieces.now)) result out.new }
{
    let mut behind = at;
    for piece in pieces {
        put(out, behind, piece);
        behind += piece.len();
    }
    put(out, behind, b"\n");
    behind + 1
}

// "`:26T:S` and status; `:57D://RU`, BIK, `.`, field 15; `:59:/` and field 17; `INN`, field 61, `.KPP`, field 103; `:72:/UIP/` and field
// 22": writes the lines at the start of a buffer and answers their length.
fn put_lines(out: &mut [u8], sheet: &[u8]) -> usize
    requires { lines_size sheet.now ≤ length out.old }
    ensures { Wrote out.old 0 (lines_of (seven_in sheet.now)) result out.new }
{
    let second = put_line(out, 0, &[b":26T:S", text(sheet, 6)]);
    let third = put_line(
        out,
        second,
        &[b":57D://RU", text(sheet, 0), b".", text(sheet, 1)],
    );
    let fourth = put_line(out, third, &[b":59:/", text(sheet, 2)]);
    let fifth = put_line(
        out,
        fourth,
        &[b"INN", text(sheet, 5), b".KPP", text(sheet, 8)],
    );
    put_line(out, fifth, &[b":72:/UIP/", text(sheet, 3)])
}

// "For an accepted class A sheet". It asks what `check` asks, and does not call it.
pub fn write_lines(sheet: &[u8], dates: Dates, buffer: &mut [u8]) -> Result<usize, Rejection>
    ensures { WritesLines dates sheet.now buffer.old result buffer.new }
{
    if !well_formed(sheet) {
        return Err(Rejection::Refused(Refusal::Malformed));
    }
    if !are_fit(dates) {
        return Err(Rejection::Refused(Refusal::Undated));
    }
    let facts = facts_of(sheet, dates);
    if let Some(rule) = broken(facts) {
        return Err(Rejection::Broken(field_of(rule, sheet), rule));
    }
    if !is_class_a(facts) {
        return Err(Rejection::Refused(Refusal::NotLines));
    }
    if buffer.len() < SIZE_WITHOUT_CODE + text(sheet, 3).len() {
        return Err(Rejection::Refused(Refusal::WrongSize));
    }
    Ok(put_lines(buffer, sheet))
}
