// The heads of the pages, and claims of pages. A head is the first 20 bytes of a page: its mark, the links that a walk follows, the
// sizes of a span, the heights and the lowest entry of a tower. The heads are copied to the scratch in one pass over the image, so
// that a walk does not wait for the memory at each page.
// That a scratch has the heads of an image (`Lent`) is no type's invariant: it is a fact of two slices, and a walk writes the one while
// the other goes on to functions that do not look at the heads.
#![tactic(auto)]

pub mod claim;
