// Pooling a register's lines (R-12).
ghost use Rattle.std.specs.Prelude.{◌≡◌, true, ◌+◌, ◌-◌, ◌*◌, ◌^◌, ◌≤◌, ◌<◌, length};
ghost use Rattle.texts.specs.Numbers.{bytes_of};
ghost use Rattle.texts.specs.Buffers.{put};
ghost use Rattle.registers.specs.Register.{line_size, inn_size, kopecks_size, lines_bytes, lines_of, register_right, order_right, pooled, most_order};
ghost use Rattle.registers.specs.Pool.{output_size, more, less, Pools};
ghost use Rattle.registers.specs.Working.Parts.{big_at};

use crate::inns::Inns;
use crate::lines::{INN_SIZE, LINE_SIZE, inn_of, is_register, kopecks_of, number_at, total_of};
use amounts::amount::Kopecks;
use texts::answers::Refusal;
use texts::buffers::put;
use texts::digits::number;
use texts::numbers::bytes_of;

// 17 with the signed difference register minus order; 7 or 16.
#[derive(Clone, Copy, Debug, PartialEq, Eq)]
pub enum Unpooled {
    Differs(i64),
    Refused(Refusal),
}

// "an output of fewer than 500 places"
const OUTPUT_SIZE: usize = 10_000;

// "an order amount outside 1 to 10^15"
const MOST_ORDER: u64 = 1_000_000_000_000_000;

fn is_order(amount: Kopecks) -> bool
    ensures { result ≡ order_right amount.0 }
{
    (1 <= amount.0) & (amount.0 <= MOST_ORDER)
}

// "the signed difference register minus order"
fn difference(total: Kopecks, amount: Kopecks) -> i64
    requires { (total.0 ≤ most_order) × (amount.0 ≤ most_order) }
    ensures { (more result ≡ total.0 - amount.0) × (less result ≡ amount.0 - total.0) }
{
    total.0 as i64 - amount.0 as i64
}

// Adds to the sum of a pooled line.
fn add(output: &mut [u8], place: usize, kopecks: Kopecks)
    requires { (place * line_size + line_size ≤ length output.old) × (big_at output.old (place * line_size + inn_size) + kopecks.0 < 2 ^ 64) }
    ensures { output.new ≡ put output.old (place * line_size + inn_size) (bytes_of kopecks_size (big_at output.old (place * line_size + inn_size) + kopecks.0)) }
{
    let at = place * LINE_SIZE + INN_SIZE;
    let sum = number_at(output, at) + kopecks.0;
    put(output, at, &bytes_of::<8>(sum));
}

// "Pool lines of one INN into one, in the order of first appearance": a line of a new INN is copied behind those in the output.
fn pool_lines(register: &[u8], output: &mut [u8]) -> usize
    requires { (register_right register.now ≡ true) × (output_size ≤ length output.old) }
    ensures { (result ≡ length (pooled (lines_of register.now))) × (output.new ≡ put output.old 0 (lines_bytes (pooled (lines_of register.now)))) }
{
    let (lines, _) = register.as_chunks::<LINE_SIZE>();
    let mut inns = Inns::none();
    for line in lines {
        let inn = number::<12>(inn_of(line));
        match inns.place_of(inn) {
            Some(place) => add(output, place, kopecks_of(line)),
            None => {
                put(output, inns.count * LINE_SIZE, line);
                inns.push(inn);
            }
        }
    }
    inns.count
}

// How many pooled lines there are, or what stands against them.
pub fn pool(register: &[u8], amount: Kopecks, output: &mut [u8]) -> Result<usize, Unpooled>
    ensures { Pools register.now amount.0 output.old result output.new }
{
    if output.len() < OUTPUT_SIZE {
        return Err(Unpooled::Refused(Refusal::WrongSize));
    }
    if !(is_register(register) & is_order(amount)) {
        return Err(Unpooled::Refused(Refusal::BadRegister));
    }
    let total = total_of(register);
    if total != amount {
        return Err(Unpooled::Differs(difference(total, amount)));
    }
    Ok(pool_lines(register, output))
}
