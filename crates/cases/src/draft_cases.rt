// Cases of messages and drafts.
use crate::fields::Fields;
use crate::written::{OK, Refused, write_refused, write_slots, write_text};
use drafts::draft::{DRAFT_SIZE, revision_in, text_in};
use drafts::message::{Heading, Version, message_text};
use drafts::revision::{Party, Revision, Standing};
use drafts::{draft, message};
use sheets::sheet::{Field, SHEET_SIZE, SLOT_COUNT};
use std::io::{Result, Write};
use texts::buffers::put;
use texts::comparisons::{all_are, equals};
use texts::parts::{at, part};

// A message is read.
pub(crate) fn read<W: Write>(message: &[u8], out: &mut W) -> Result<()> {
    match message::read(message) {
        Ok(heading) => {
            let version = heading.version.0;
            let Revision { number, party } = heading.revision;
            write!(
                out,
                "ok {version} {} {} {number} ",
                party.0, heading.field.0
            )?;
            write_text(message_text(message), out)
        }
        Err(refusal) => write!(out, "{}", Refused(refusal)),
    }
}

// A message is written: version, party, field, revision and the buffer's size, 8, 33, 34 or any other for 40, then the text.
pub(crate) fn write<W: Write>(mut fields: Fields<'_>, out: &mut W) -> Result<()> {
    let version = Version(fields.u8());
    let party = Party(fields.u8());
    let field = Field(fields.u8());
    let number = fields.u32();
    let heading = Heading {
        version,
        field,
        revision: Revision { number, party },
    };
    let size = fields.u8();
    let text = fields.rest;
    match size {
        8 => write_into(heading, text, &mut [255; 8], out),
        33 => write_into(heading, text, &mut [255; 33], out),
        34 => write_into(heading, text, &mut [255; 34], out),
        _ => write_into(heading, text, &mut [255; 40], out),
    }
}

// The bytes of the message's head as numbers, the text, and the byte behind the message: 255, or 0 where the buffer ends.
fn write_into<W: Write>(
    heading: Heading,
    text: &[u8],
    buffer: &mut [u8],
    out: &mut W,
) -> Result<()> {
    match message::write(heading, text, buffer) {
        Ok(size) => {
            let head = heading.version.head_size();
            write!(out, "{OK} {size}")?;
            for b in part(buffer, 0, head) {
                write!(out, " {b}")?;
            }
            out.write_all(b" ")?;
            write_text(part(buffer, head, size), out)?;
            write!(out, " {}", at(buffer, size))
        }
        Err(refusal) => write_refused(refusal, all_are(buffer, 255), out),
    }
}

// What the slots of a draft hold: each its revision, its party and its text.
fn write_draft<W: Write>(draft: &[u8], out: &mut W) -> Result<()> {
    for slot in 0..SLOT_COUNT {
        let revision = revision_in(draft, slot);
        write!(out, " {} {} ", revision.number, revision.party.0)?;
        write_text(text_in(draft, slot), out)?;
    }
    Ok(())
}

// A buffer of 465 bytes, or of any other number one of 464, is made a fresh draft.
pub(crate) fn fresh<W: Write>(before: &[u8], out: &mut W) -> Result<()> {
    if before.len() == DRAFT_SIZE {
        fresh_in(&mut [0; DRAFT_SIZE], before, out)
    } else {
        fresh_in(&mut [0; 464], before, out)
    }
}

fn fresh_in<W: Write>(buffer: &mut [u8], before: &[u8], out: &mut W) -> Result<()> {
    put(buffer, 0, before);
    match draft::fresh(buffer) {
        Ok(()) => {
            out.write_all(b"ok")?;
            write_draft(buffer, out)
        }
        Err(refusal) => write_refused(refusal, equals(buffer, before), out),
    }
}

// A message is posted to the draft before it, of 465 bytes, or of any other number to one of 464.
pub(crate) fn post<W: Write>(before: &[u8], message: &[u8], out: &mut W) -> Result<()> {
    if before.len() == DRAFT_SIZE {
        post_to(&mut [0; DRAFT_SIZE], before, message, out)
    } else {
        post_to(&mut [0; 464], before, message, out)
    }
}

fn post_to<W: Write>(draft: &mut [u8], before: &[u8], message: &[u8], out: &mut W) -> Result<()> {
    put(draft, 0, before);
    match draft::post(draft, message) {
        Ok(standing) => {
            match standing {
                Standing::Newer => out.write_all(b"newer")?,
                Standing::Same => out.write_all(b"same")?,
                Standing::Older => out.write_all(b"older")?,
            }
            write_draft(draft, out)
        }
        Err(refusal) => write_refused(refusal, equals(draft, before), out),
    }
}

// A draft is copied to the sheet behind it, of 390 bytes, or of any other number to one of 389.
pub(crate) fn copy<W: Write>(draft: &[u8], before: &[u8], out: &mut W) -> Result<()> {
    if before.len() == SHEET_SIZE {
        copy_to(draft, &mut [0; SHEET_SIZE], before, out)
    } else {
        copy_to(draft, &mut [0; 389], before, out)
    }
}

fn copy_to<W: Write>(draft: &[u8], sheet: &mut [u8], before: &[u8], out: &mut W) -> Result<()> {
    put(sheet, 0, before);
    match draft::copy(draft, sheet) {
        Ok(()) => {
            out.write_all(b"ok")?;
            write_slots(sheet, out)
        }
        Err(refusal) => write_refused(refusal, equals(sheet, before), out),
    }
}
