// Amounts of money in kopecks: the bank's charge (R-10) and part of a year (R-11). Each public function takes any arguments.
#![tactic(auto)]

pub mod amount;
pub mod charge;
pub mod part;
pub mod shares;
