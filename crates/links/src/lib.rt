// Towers linked: the towers around a place of a table, and the writes of towers, of their entries and of skip lists.
#![tactic(auto)]

pub mod around;
pub mod write;
