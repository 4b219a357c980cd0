// Completing a draft, taking up part of what is proposed, and streams of messages (document 01, and R-3, R-9, R-14).
#![tactic(auto)]

pub mod complete;
pub mod entry;
pub mod fill;
pub mod origins;
mod payment;
pub mod pretest;
pub mod quick;
pub mod search;
pub mod stream;
pub mod take_up;
