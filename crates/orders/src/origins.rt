// Of an input of messages end to end: which message each slot holds.
ghost use Rattle.std.specs.Prelude.{◌≡◌, List, [], ◌∷◌, ◌++◌, ℕ, ◌+◌, length};
ghost use Rattle.orders.specs.Origins.{Origins};
ghost use Rattle.orders.specs.Working.Winners.{Won};

use crate::stream::Messages;
use drafts::message::read;
use sheets::sheet::slot_of;

// "Fifteen fields, in slots 0 to 14".
pub const PLACES: usize = 15;

// The message that wins a slot: its revision and party as one number, and its number in the list; 0 and 0 where none names its field.
#[derive(Clone, Copy)]
struct Winner {
    rank: u64,
    number: u64,
}

const NONE: Winner = Winner { rank: 0, number: 0 };

// One message more, which has a number. Only one that is above what its slot holds wins it: among equals the first stays.
fn note(winners: &mut [Winner; PLACES], message: &[u8], number: u64)
    ensures { (ms : List (List ℕ)) → number ≡ length ms + 1 → Won ms winners.old → Won (ms ++ (message.now ∷ [])) winners.new }
{
    let Ok(heading) = read(message) else {
        return;
    };
    let slot = usize::from(slot_of(heading.field));
    let rank = heading.revision.rank();
    if winners[slot].rank < rank {
        winners[slot] = Winner { rank, number };
    }
}

// The number of the message, from 1, whose revision, party and text each slot holds after all of them were posted to a fresh draft; 0 where
// none names its field. A message has a byte at least, so that 64 bits hold any number.
pub fn origins(input: &[u8]) -> [u64; PLACES]
    ensures { Origins input.now result }
{
    let mut winners = [NONE; PLACES];
    let mut number = 0;
    for message in Messages::of(input) {
        number += 1;
        note(&mut winners, message, number);
    }
    winners.map(|winner| winner.number)
}
