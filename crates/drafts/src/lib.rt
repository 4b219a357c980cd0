// Orders as messages give them: the codec of messages, and the draft that they are posted to.
#![tactic(auto)]

pub mod draft;
pub mod message;
pub mod revision;
