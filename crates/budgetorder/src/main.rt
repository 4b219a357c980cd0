// Reads messages from standard input and writes the report (document 01, "Writer and program"). Assumes the contracts of libc's read and write.
#![tactic(auto)]

use report::{INPUT_SIZE, REPORT_SIZE, report};

// The numbers of the standard streams.
const STDIN_FILENO: i32 = 0;

const STDOUT_FILENO: i32 = 1;

const STDERR_FILENO: i32 = 2;

fn main() {
    let mut input = [0u8; INPUT_SIZE];
    let count = io::read_full(STDIN_FILENO, &mut input);
    let mut out = [0u8; REPORT_SIZE];
    let length = report(&input[..count], &mut out);
    if !io::write_all(STDOUT_FILENO, &out[..length]) {
        io::write_all(
            STDERR_FILENO,
            b"budgetorder: the report could not be written\n",
        );
    }
    // Says on standard error that more input follows; none of it is read as messages.
    if count == INPUT_SIZE && io::read_full(STDIN_FILENO, &mut [0u8]) == 1 {
        io::write_all(
            STDERR_FILENO,
            b"budgetorder: input past 32,768 bytes was not read\n",
        );
    }
}
