// Reading from an accepted image: a table by its name, an entry by its key, the next key.
#![tactic(auto)]

pub mod next;
pub mod path;
pub mod span;
pub mod table;
