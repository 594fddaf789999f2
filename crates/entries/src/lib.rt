// A span's entries on its pages: the one crate that knows where a page's bytes end and the next page's begin.
// That so many bytes follow a place (`Enough`, `Key`) is no invariant of `Place`: it is a fact of the image too, and a place is kept over calls
// that are lent the image anew.
#![tactic(auto)]

pub mod copy;
pub mod key;
pub mod place;
pub mod rank;
pub mod sorted;
