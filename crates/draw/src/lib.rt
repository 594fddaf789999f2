// Pages for a call that writes: the list of their numbers, pages drawn and given back, the pages of a span written whole.
#![tactic(auto)]

pub mod draw;
pub mod list;
pub mod write;
