// Runs the cases of its input and writes what each answers: orders completed, taken up and tested ahead, lists, origins, and whole reports,
// with what a second implementation answers as the expected output.
// Assumes the contracts of libc's read and write.
#![tactic(auto)]

use cases::{Kind, run};

// What it answers; to other cases with a line end alone.
const KINDS: [Kind; 7] = [
    Kind::Complete,
    Kind::Quick,
    Kind::TakeUp,
    Kind::Pretest,
    Kind::Entry,
    Kind::Origins,
    Kind::Report,
];

fn main() {
    run(&KINDS);
}
