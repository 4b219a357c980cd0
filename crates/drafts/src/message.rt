// Messages: reading and writing.
ghost use Rattle.std.specs.Prelude.{◌≡◌, not, ◌+◌, ◌≤◌, length, take, drop};
ghost use Rattle.texts.specs.Working.Writing.{put_at};
ghost use Rattle.sheets.specs.Sheet.{text_max};
ghost use Rattle.drafts.specs.Message.{known_version, body_place, head_size, revision_place, revision_size, text_place, length_of, misframed, party_of, message_body, message_text, allowed, head_bytes};
ghost use Rattle.drafts.specs.Working.Steps.{takes};
ghost use Rattle.drafts.specs.Promises.{Reads, Writes};

use crate::revision::{ADVISER, Party, Revision, revision_number};
use sheets::sheet::{Field, SLOT_COUNT, TEXT_MAX, slot_of};
use texts::answers::Refusal;
use texts::buffers::put;
use texts::numbers::{bytes_of, number_of};
use texts::parts::{at, part};

// What both versions have behind the version, and in version 2 the party: the field in one byte, "revision in four bytes", and the text.
const REVISION_PLACE: usize = 1;

pub const REVISION_SIZE: usize = 4;

const TEXT_PLACE: usize = REVISION_PLACE + REVISION_SIZE;

// Where that begins: behind L and the version, and in version 2 a byte later.
const FIRST_BODY: usize = 3;

const SECOND_BODY: usize = FIRST_BODY + 1;

// The longest head, that of version 2.
const HEAD_MOST: usize = SECOND_BODY + TEXT_PLACE;

// L counts what stands behind its own two bytes: the least of version 1, and the most of version 2.
const LEAST_L: usize = FIRST_BODY + TEXT_PLACE - 2;

const MOST_L: usize = HEAD_MOST - 2 + TEXT_MAX;

// The version of a message.
#[derive(Clone, Copy, Debug, PartialEq, Eq)]
pub struct Version(pub u8);

impl Version {
    fn known(self) -> bool
        ensures { result ≡ known_version self.0 }
    {
        self.0 == 1 || self.0 == 2
    }

    fn body_place(self) -> usize
        ensures { result ≡ body_place self.0 }
    {
        if self.0 == 2 { SECOND_BODY } else { FIRST_BODY }
    }

    // Whether a message of this version may have n bytes, of those that one of either version may have.
    #[tactic(auto, unfolding(crate::specs::Working::Steps::takes))]
    fn takes(self, n: usize) -> bool
        ensures { result ≡ takes self.0 n }
    {
        if self.0 == 2 {
            n != LEAST_L + 2
        } else {
            n != MOST_L + 2
        }
    }

    // How many bytes stand before the text.
    pub fn head_size(self) -> usize
        ensures { result ≡ head_size self.0 }
    {
        self.body_place() + TEXT_PLACE
    }

    // Whether a message of this version may be of a party: "the client when writing version 1" may not.
    fn allows(self, party: Party) -> bool
        ensures { result ≡ allowed self.0 party.0 }
    {
        party.known() && (self.0 == 2 || party.0 == ADVISER)
    }
}

// What a message says beside its text.
#[derive(Clone, Copy, Debug, PartialEq, Eq)]
pub struct Heading {
    pub version: Version,
    pub field: Field,
    pub revision: Revision,
}

// L.
fn length_of(message: &[u8]) -> usize
    ensures { result ≡ length_of message.now }
{
    number_of([at(message, 0), at(message, 1)]) as usize
}

// The party of a message: "Version 1 counts as the adviser".
#[tactic(auto, unfolding(crate::specs::Message::party_of))]
fn party_of(message: &[u8]) -> Party
    ensures { result.0 ≡ party_of message.now }
{
    if at(message, 2) == 2 {
        Party(at(message, FIRST_BODY))
    } else {
        Party(ADVISER)
    }
}

// The field, the revision and the text of a message, as a part of it.
#[tactic(auto, using(crate::proofs::MessagePromises::heads))]
fn message_body(message: &[u8]) -> &[u8]
    ensures { result.now ≡ message_body message.now }
{
    part(message, Version(at(message, 2)).body_place(), message.len())
}

// A message has a size that one of either version may have, and L is the rest.
#[tactic(auto, using(crate::proofs::MessagePromises::framing))]
fn framed(message: &[u8]) -> bool
    ensures { result ≡ not (misframed message.now) }
{
    (LEAST_L + 2..=MOST_L + 2).contains(&message.len()) && length_of(message) + 2 == message.len()
}

// The field and the revision of a message.
fn field_and_revision(message: &[u8], version: Version) -> &[u8]
    requires { body_place version.0 + text_place ≤ length message.now }
    ensures { result.now ≡ take text_place (drop (body_place version.0) message.now) }
{
    let place = version.body_place();
    &message[place..place + TEXT_PLACE]
}

// The version, the field and the revision of a message; `message_text` has its text.
pub fn read(message: &[u8]) -> Result<Heading, Refusal>
    ensures { Reads message.now result }
{
    if !framed(message) {
        return Err(Refusal::BadLength);
    }
    let version = Version(at(message, 2));
    if !version.known() {
        return Err(Refusal::UnknownVersion);
    }
    if !version.takes(message.len()) {
        return Err(Refusal::BadLength);
    }
    let body = field_and_revision(message, version);
    let party = party_of(message);
    if !party.known() {
        return Err(Refusal::UnknownParty);
    }
    let field = Field(at(body, 0));
    if slot_of(field) == SLOT_COUNT {
        return Err(Refusal::UnknownField);
    }
    let number = revision_number(part(body, REVISION_PLACE, TEXT_PLACE));
    if number == 0 {
        return Err(Refusal::NoRevision);
    }
    let revision = Revision { number, party };
    Ok(Heading {
        version,
        field,
        revision,
    })
}

// The text of a message, as a part of it: the bytes behind its head, none where there are none.
#[tactic(auto, using(crate::proofs::MessagePromises::heads))]
pub fn message_text(message: &[u8]) -> &[u8]
    ensures { result.now ≡ message_text message.now }
{
    let body = message_body(message);
    part(body, TEXT_PLACE, body.len())
}

// Puts the bytes before a text of n bytes at the buffer's start, where they fit. The field of version 1 stands where the party of version 2
// does. It is compiled into `put_message`, and that into `write`, which has the heading's parts at hand.
#[inline(always)]
#[tactic(auto, using(crate::proofs::MessagePromises::heads))]
fn put_head(heading: Heading, n: usize, buffer: &mut [u8])
    requires { n ≤ text_max }
    ensures { buffer.new ≡ put_at buffer.old 0 (head_bytes heading.version.0 heading.field.0 heading.revision n) }
{
    let Heading {
        version,
        field,
        revision,
    } = heading;
    let size = version.head_size();
    if size <= buffer.len() {
        let l = size - 2 + n;
        let place = version.body_place();
        put(buffer, 0, &[0, l as u8, version.0, revision.party.0]);
        put(buffer, place, &[field.0]);
        put(
            buffer,
            place + REVISION_PLACE,
            &bytes_of::<4>(u64::from(revision.number)),
        );
    }
}

// Puts a message's head and its text at the buffer's start.
#[inline(always)]
fn put_message(heading: Heading, text: &[u8], buffer: &mut [u8])
    requires { length text.now ≤ text_max }
    ensures { buffer.new ≡ put_at (put_at buffer.old 0 (head_bytes heading.version.0 heading.field.0 heading.revision (length text.now))) (head_size heading.version.0) text.now }
{
    let size = heading.version.head_size();
    put_head(heading, text.len(), buffer);
    put(buffer, size, text);
}

// Writes a message at the buffer's start, and leaves the rest. It answers how many bytes the message has.
pub fn write(heading: Heading, text: &[u8], buffer: &mut [u8]) -> Result<usize, Refusal>
    ensures { Writes heading text.now buffer.old result buffer.new }
{
    let n = text.len();
    if TEXT_MAX < n {
        return Err(Refusal::BadLength);
    }
    let Heading {
        version,
        field,
        revision,
    } = heading;
    if !version.known() {
        return Err(Refusal::UnknownVersion);
    }
    if !version.allows(revision.party) {
        return Err(Refusal::UnknownParty);
    }
    if slot_of(field) == SLOT_COUNT {
        return Err(Refusal::UnknownField);
    }
    if revision.number == 0 {
        return Err(Refusal::NoRevision);
    }
    let size = version.head_size();
    if buffer.len() < n + size {
        return Err(Refusal::WrongSize);
    }
    put_message(heading, text, buffer);
    Ok(n + size)
}
