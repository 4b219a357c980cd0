// The lines of MT103 for a sheet's texts, written and read (document 02, R-6).
#![tactic(auto)]

pub mod read;
pub mod write;
