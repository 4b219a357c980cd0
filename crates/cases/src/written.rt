// How answers are written.
use rules::check::Rejection;
use rules::rules::RuleNumber;
use sheets::sheet::{Field, SLOT_COUNT, text};
use std::fmt;
use std::io::{Result, Write};
use texts::answers::Refusal;

// What an answer that is no refusal begins with. As a hole of a format it is written apart from the text behind it, and what the standard output
// does not take is left out by what is written at one time.
pub(crate) const OK: &str = "ok";

// A refusal, by its number.
#[derive(Clone, Copy, Drop)]
pub(crate) struct Refused(pub(crate) Refusal);

impl fmt::Display for Refused {
    fn fmt<W: fmt::Write>(&self, f: &mut fmt::Formatter<W>) -> fmt::Result {
        let number = u8::from(self.0);
        write!(f, "{number}")
    }
}

// A rule that is broken, behind 8 and the field that it names.
#[derive(Clone, Copy, Drop)]
pub(crate) struct Broken(pub(crate) Field, pub(crate) RuleNumber);

impl fmt::Display for Broken {
    fn fmt<W: fmt::Write>(&self, f: &mut fmt::Formatter<W>) -> fmt::Result {
        let refused = Refused(Refusal::BrokenRule);
        let field = self.0.0;
        let rule = self.1.0;
        write!(f, "{refused} {field} {rule}")
    }
}

#[derive(Clone, Copy, Drop)]
pub(crate) struct Rejected(pub(crate) Rejection);

impl fmt::Display for Rejected {
    fn fmt<W: fmt::Write>(&self, f: &mut fmt::Formatter<W>) -> fmt::Result {
        match self.0 {
            Rejection::Broken(field, rule) => write!(f, "{}", Broken(field, rule)),
            Rejection::Refused(refusal) => write!(f, "{}", Refused(refusal)),
        }
    }
}

// A text as it is, `-` for a blank.
pub(crate) fn write_text<W: Write>(text: &[u8], out: &mut W) -> Result<()> {
    if text.is_empty() {
        out.write_all(b"-")
    } else {
        out.write_all(text)
    }
}

// The fifteen texts of a sheet, in slot order.
pub(crate) fn write_slots<W: Write>(sheet: &[u8], out: &mut W) -> Result<()> {
    for slot in 0..SLOT_COUNT {
        out.write_all(b" ")?;
        write_text(text(sheet, slot), out)?;
    }
    Ok(())
}

// A refusal, and whether the lent buffer is as it was.
pub(crate) fn write_refused<W: Write>(refusal: Refusal, kept: bool, out: &mut W) -> Result<()> {
    let state = if kept { " kept" } else { " changed" };
    write!(out, "{}{state}", Refused(refusal))
}
