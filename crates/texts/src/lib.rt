// What every crate above uses: tests on byte texts, digits and big-endian numbers, writing into a lent buffer, the refusals. Each public
// function takes any arguments.
#![tactic(auto)]

pub mod answers;
pub mod buffers;
pub mod comparisons;
pub mod digits;
pub mod numbers;
pub mod parts;
