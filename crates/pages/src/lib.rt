// Pages of an image: reading and writing them, their kinds, and the free list.
// That bytes of a page are in the image (`Inside`) is no type's invariant: pages are named by their numbers, as the image names them.
#![tactic(auto)]

pub mod free;
pub mod mark;
pub mod read;
pub mod word;
pub mod write;
