// Runs the cases of its input and writes what each answers: sheets, messages, drafts, lines and amounts, with what a second
// implementation answers as the expected output.
// Assumes the contracts of libc's read and write.
#![tactic(auto)]

use cases::{Kind, run};

// What it answers; to other cases with a line end alone.
const KINDS: [Kind; 16] = [
    Kind::Check,
    Kind::CheckAt,
    Kind::BrokenRules,
    Kind::WriteLines,
    Kind::WriteShort,
    Kind::ReadLines,
    Kind::Message,
    Kind::WriteMessage,
    Kind::Fresh,
    Kind::Post,
    Kind::Copy,
    Kind::Charge,
    Kind::Part,
    Kind::Shares,
    Kind::Pool,
    Kind::Leave,
];

fn main() {
    run(&KINDS);
}
