// The kinds of cases.
ghost use Rattle.cases.specs.Kind.{Decodes};

// What a case asks for; unless said otherwise of what all its bytes are.
#[derive(Clone, Copy, PartialEq, Eq, Debug)]
pub enum Kind {
    // Of a sheet: its class, at the program's dates, and at the dates before it; all rules that it breaks.
    Check,
    CheckAt,
    BrokenRules,
    // Of a sheet behind dates: its MT103 lines, written with room for any lines, and with none.
    WriteLines,
    WriteShort,
    // The sheet of a block of MT103 lines.
    ReadLines,
    // What a message says.
    Message,
    // The message of a version, party, field and revision, and a text.
    WriteMessage,
    // The fresh draft in a buffer.
    Fresh,
    // A message posted to a draft, and a draft copied to a sheet, each behind the first one's size.
    Post,
    Copy,
    // Of messages behind dates, posted to a fresh draft: its completion; with the number of skipped statuses; with the values of a set between
    // the two taken up.
    Complete,
    Quick,
    TakeUp,
    // A draft tested ahead of completion.
    Pretest,
    // The entry of a field's list at a place, behind dates.
    Entry,
    // Of messages, which one each slot holds.
    Origins,
    // The report of an input of the program budgetorder.
    Report,
    // The bank's charge for an amount, its part of a year, and its shares.
    Charge,
    Part,
    Shares,
    // A register pooled.
    Pool,
    // The payments that leave a balance.
    Leave,
}

#[derive(Clone, Copy, PartialEq, Eq, Debug, Drop)]
pub struct UnknownKind(pub u8);

impl TryFrom<u8> for Kind {
    type Error = UnknownKind;

    ghost try_from_gives = { Decodes };

    fn try_from(byte: u8) -> Result<Kind, UnknownKind> {
        match byte {
            b'c' => Ok(Kind::Check),
            b'd' => Ok(Kind::CheckAt),
            b'b' => Ok(Kind::BrokenRules),
            b'w' => Ok(Kind::WriteLines),
            b's' => Ok(Kind::WriteShort),
            b'l' => Ok(Kind::ReadLines),
            b'm' => Ok(Kind::Message),
            b'v' => Ok(Kind::WriteMessage),
            b'f' => Ok(Kind::Fresh),
            b'p' => Ok(Kind::Post),
            b'y' => Ok(Kind::Copy),
            b'o' => Ok(Kind::Complete),
            b'q' => Ok(Kind::Quick),
            b't' => Ok(Kind::TakeUp),
            b'e' => Ok(Kind::Pretest),
            b'i' => Ok(Kind::Entry),
            b'k' => Ok(Kind::Origins),
            b'r' => Ok(Kind::Report),
            b'g' => Ok(Kind::Charge),
            b'a' => Ok(Kind::Part),
            b'h' => Ok(Kind::Shares),
            b'n' => Ok(Kind::Pool),
            b'x' => Ok(Kind::Leave),
            _ => Err(UnknownKind(byte)),
        }
    }
}
