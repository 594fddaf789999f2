// Is an image well-formed: one module for each kind of thing.
#![tactic(auto)]

pub mod free;
pub mod image;
pub mod names;
pub mod superblock;
pub mod table;
