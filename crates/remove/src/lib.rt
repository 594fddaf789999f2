// A key removed from a table of an accepted image: its span left with its other entries, or unlinked with its tower and given back.
#![tactic(auto)]

pub mod gone;
pub mod remove;
pub mod tower;
pub mod unlink;
