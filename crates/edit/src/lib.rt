// Changes of a table on an accepted image.
#![tactic(auto)]

pub mod apply;
pub mod counts;
pub mod fields;
pub mod height;
pub mod plan;
pub mod put;
pub mod shape;
pub mod span;
pub mod staging;
pub mod tower;
