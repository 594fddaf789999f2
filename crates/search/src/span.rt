// The entries of one span, read in their order. Keys rise as those of their table sort, so a search stops at the first key above the one
// sought.
ghost use Rattle.search.specs.Spans.{SpanBy, FilledBy, EntryThere, StoppedOn, FoundOn, AboveOn, OverOn, KeyOf};

use entries::place::{Place, Sizes, lengths};
use entries::sorted::compare_as;
use order::sort::Sort;
use pages::read::get;
use reader::place_after;
use std::cmp::Ordering;

// Bytes of a span, a key or a value: the place where they begin, and how many.
#[derive(Clone, Copy)]
pub struct Extent {
    pub at: Place,
    pub length: usize,
}

// Where a search along the entries stopped.
#[derive(Clone, Copy)]
pub enum Stop {
    // At the entry with the key; with it, so many entries are left.
    Here(Sizes, usize),
    // At the first entry above the key; with it, so many entries are left.
    Above(Sizes, usize),
    // Behind the last entry.
    End,
}

// Searches the entries of the span on the page for the key.
pub fn seek(image: &[u8], page: usize, sort: Sort, key: &[u8]) -> Stop
    requires { SpanBy image.now page sort }
    ensures { StoppedOn image.now page sort key.now result }
{
    let mut at = Place { page, offset: 20 };
    let mut left = get::<u16>(image, page, 18);
    // Counted down by hand: how many are left is a part of the answer.
    while left != 0 {
        let g = lengths(image, at);
        match compare_as(image, g.after, g.key, sort, key) {
            Ordering::Less => {
                at = place_after(image, g.after, g.key + g.value);
                left -= 1;
            }
            Ordering::Equal => {
                return Stop::Here(g, left);
            }
            Ordering::Greater => {
                return Stop::Above(g, left);
            }
        }
    }
    Stop::End
}

// The value under the key in the span on the page.
pub fn find_entry(image: &[u8], page: usize, sort: Sort, key: &[u8]) -> Option<Extent>
    requires { SpanBy image.now page sort }
    ensures { FoundOn image.now page sort key.now result }
{
    let Stop::Here(g, _) = seek(image, page, sort, key) else {
        return None;
    };
    Some(Extent {
        at: place_after(image, g.after, g.key),
        length: g.value,
    })
}

// The key of the entry here.
pub fn key_of(image: &[u8], at: Place) -> Extent
    requires { EntryThere image.now at }
    ensures { KeyOf image.now at result }
{
    let g = lengths(image, at);
    Extent {
        at: g.after,
        length: g.key,
    }
}

// The smallest key above the given one in the span on the page.
pub fn key_above(image: &[u8], page: usize, sort: Sort, key: &[u8]) -> Option<Extent>
    requires { SpanBy image.now page sort }
    ensures { AboveOn image.now page sort key.now result }
{
    let stop = seek(image, page, sort, key);
    match stop {
        Stop::Here(g, left) => {
            if left == 1 {
                return None;
            }
            let next = place_after(image, g.after, g.key + g.value);
            Some(key_of(image, next))
        }
        Stop::Above(g, _) => Some(Extent {
            at: g.after,
            length: g.key,
        }),
        Stop::End => None,
    }
}

// How far a search goes along the spans of a table: to the last that begins at the key or below it; strictly, below it.
#[derive(Clone, Copy)]
pub struct Bound {
    pub sort: Sort,
    pub strict: bool,
}

// Whether the span on the page, which is not empty, begins past the bound.
pub fn begins_past(image: &[u8], page: usize, bound: Bound, key: &[u8]) -> bool
    requires { FilledBy image.now page bound.sort }
    ensures { OverOn image.now page bound key.now result }
{
    let g = lengths(image, Place { page, offset: 20 });
    match compare_as(image, g.after, g.key, bound.sort, key) {
        Ordering::Greater => true,
        Ordering::Less => false,
        Ordering::Equal => bound.strict,
    }
}
