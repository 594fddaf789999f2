// The orders of keys: byte strings compared eight bytes at a time, and how the keys of a table sort.
#![tactic(auto)]

pub mod bytes;
pub mod sort;
