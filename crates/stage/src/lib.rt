// The entries of a span as they will be after a call: one may give way, one may come. They are measured, and encoded in a buffer.
#![tactic(auto)]

pub mod change;
pub mod encode;
pub mod measure;
