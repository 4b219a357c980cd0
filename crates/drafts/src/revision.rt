// Revisions of a field.
ghost use Rattle.std.specs.Prelude.{◌≡◌};
ghost use Rattle.texts.specs.Numbers.{big, bytes_at};
ghost use Rattle.drafts.specs.Revision.{known_party, rank, comparison};
ghost use Rattle.drafts.specs.Message.{revision_size};

use std::cmp::Ordering;
use texts::answers::Refusal;
use texts::numbers::number_of;
use texts::parts::at;

pub const CLIENT: u8 = 1;

pub const ADVISER: u8 = 2;

// The party that gave a revision: the client or the adviser; 0 in a slot that none was given.
#[derive(Clone, Copy, Debug, PartialEq, Eq, PartialOrd, Ord)]
pub struct Party(pub u8);

impl Party {
    pub fn known(self) -> bool
        ensures { result ≡ known_party self.0 }
    {
        self.0 == CLIENT || self.0 == ADVISER
    }
}

// The revision that a message gives its field, or that a slot holds, with the party that gave it; 0 in a slot that none was given. Of two the
// higher stands, and of two equal ones the adviser's: the order of the fields.
#[derive(Clone, Copy, Debug, PartialEq, Eq, PartialOrd, Ord)]
pub struct Revision {
    pub number: u32,
    pub party: Party,
}

// The number of a revision, of the bytes that begin with it in a message or in a slot.
pub fn revision_number(bytes: &[u8]) -> u32
    ensures { result ≡ big (bytes_at bytes.now 0 revision_size) }
{
    number_of([at(bytes, 0), at(bytes, 1), at(bytes, 2), at(bytes, 3)]) as u32
}

// How a message stands to what its slot holds.
#[derive(Clone, Copy, Debug, PartialEq, Eq)]
pub enum Standing {
    Newer,
    Same,
    Older,
}

impl Revision {
    // What is compared: the revision, then the party.
    pub fn rank(self) -> u64
        ensures { result ≡ rank self }
    {
        u64::from(self.number) * 256 + u64::from(self.party.0)
    }

    // How a message of this revision stands to a slot of the revision `had`, by whether their texts are the same.
    pub fn against(self, had: Revision, same_text: bool) -> Result<Standing, Refusal>
        ensures { result ≡ comparison self had same_text }
    {
        match self.cmp(&had) {
            Ordering::Greater => Ok(Standing::Newer),
            Ordering::Less => Ok(Standing::Older),
            Ordering::Equal if same_text => Ok(Standing::Same),
            Ordering::Equal => Err(Refusal::Clash),
        }
    }
}
