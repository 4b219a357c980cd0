// The rules of budget payment orders, over sheets (document 01, "Rules", and R-1).
#![tactic(auto)]

pub mod all_broken;
pub mod check;
pub mod class;
pub mod groups;
pub mod rules;
