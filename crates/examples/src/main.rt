// Runs the cases of its input and writes what each answers: document 01's examples and boundary cases, with what a second
// implementation answers as the expected output.
// Assumes the contracts of libc's read and write.
#![tactic(auto)]

use cases::{Kind, run};

// What it answers; to other cases with a line end alone.
const KINDS: [Kind; 20] = [
    Kind::Check,
    Kind::CheckAt,
    Kind::WriteLines,
    Kind::WriteShort,
    Kind::ReadLines,
    Kind::Message,
    Kind::WriteMessage,
    Kind::Fresh,
    Kind::Post,
    Kind::Copy,
    Kind::Complete,
    Kind::Quick,
    Kind::TakeUp,
    Kind::Pretest,
    Kind::Report,
    Kind::Charge,
    Kind::Part,
    Kind::Shares,
    Kind::Pool,
    Kind::Leave,
];

fn main() {
    run(&KINDS);
}
