// Which payments leave first (R-13). The public function takes any arguments.
#![tactic(auto)]

pub mod leave;
