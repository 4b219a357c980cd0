// A register of persons pooled by INN (R-12). The public function takes any arguments.
#![tactic(auto)]

mod inns;
mod lines;
pub mod pool;
