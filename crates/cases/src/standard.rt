// The standard input and output. Assumes the contracts of libc's read and write.
ghost use Rattle.std.specs.Prelude.{◌≡◌, ◌≤◌, length};

use crate::answer;
use crate::kind::Kind;
use crate::stream::Cases;
use std::io::{Result, Write};

// The numbers of the streams.
const STDIN_FILENO: i32 = 0;

const STDOUT_FILENO: i32 = 1;

// Zeros for the input, which a literal array of that length would be too long for. What is promised is their number alone, which is all that
// a program asks.
fn zeros<const N: usize>() -> [u8; N]
    ensures { length result ≡ N }
{
    [0; N]
}

// The standard input, as far as the buffer holds it.
fn read_input(buffer: &mut [u8]) -> &[u8]
    ensures { length result.now ≤ length buffer.old }
{
    let size = io::read_full(STDIN_FILENO, buffer);
    &buffer[..size]
}

// The standard output, as a writer. What can't be written is left out, and the next is tried.
#[derive(Drop)]
struct Output;

impl Write for Output {
    fn write(&mut self, bytes: &[u8]) -> Result<usize> {
        io::write_all(STDOUT_FILENO, bytes);
        Ok(bytes.len())
    }

    // In one call, since `write` takes all of them.
    fn write_all(&mut self, bytes: &[u8]) -> Result<()> {
        self.write(bytes)?;
        Ok(())
    }

    fn flush(&mut self) -> Result<()> {
        Ok(())
    }
}

// Runs the cases of the standard input and writes what each answers, one behind another; a case whose kind is none of these is answered with
// a line end alone.
pub fn run(kinds: &[Kind]) {
    let mut buffer: [u8; 524288] = zeros();
    for case in Cases::of(read_input(&mut buffer), kinds) {
        let _ = answer(case, &mut Output);
    }
}
