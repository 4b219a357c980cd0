// A sheet: its slots (document 01, "Draft and sheet"), the forms of its texts, and what the rules ask of it, found once.
#![tactic(auto)]

pub mod dates;
pub mod entries;
pub mod facts;
pub mod forms;
pub mod sheet;
