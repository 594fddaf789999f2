// A change of a span's entries, and cursors that go through the list that it makes.
ghost use Rattle.std.specs.Prelude.{◌≡◌, ◌+◌, ◌-◌, ◌≤◌, ◌<◌};
ghost use Rattle.std.specs.Int.{from_bool};
ghost use Rattle.search.specs.Spans.{SpanBy, EntryThere};
ghost use Rattle.stage.specs.Changes.{SpottedOn, put_at, PassedOver, Going, Reached, IsNew, NextOf};

use entries::place::{Place, Sizes, lengths};
use order::sort::Sort;
use pages::read::get;
use reader::place_after;
use search::span::{Stop, seek};

// At the index, whether the entry there gives way, and whether one comes.
#[derive(Clone, Copy)]
pub struct Change {
    pub index: usize,
    pub drops: bool,
    pub adds: bool,
}

// The entry that comes. It stands beside the change and not in it: measuring takes the change alone, with the entry's length.
#[derive(Clone, Copy)]
pub struct NewEntry<'a> {
    pub key: &'a [u8],
    pub value: &'a [u8],
}

// How many entries there are after the change, of `size` before it.
pub fn size_after(size: usize, change: Change) -> usize
    requires { (size < 65536) × (from_bool change.drops ≤ size + from_bool change.adds) }
    ensures { result ≡ size + from_bool change.adds - from_bool change.drops }
{
    size + usize::from(change.adds) - usize::from(change.drops)
}

// An index into the new list, and the place of the old entry that comes next.
#[derive(Clone, Copy)]
pub struct Cursor {
    pub index: usize,
    pub at: Place,
}

// An entry of the new list, and the cursor behind it.
#[derive(Clone, Copy)]
pub enum Next {
    // The entry that comes.
    New(Cursor),
    // An entry that was there.
    Old(Sizes, Cursor),
}

// Where the key belongs in the span on the page: `Ok` has the index of the entry with the key, `Err` the number of entries below it.
pub fn find_spot(image: &[u8], page: usize, sort: Sort, key: &[u8]) -> Result<usize, usize>
    requires { SpanBy image.now page sort }
    ensures { SpottedOn image.now page sort key.now result }
{
    let size = get::<u16>(image, page, 18);
    let stop = seek(image, page, sort, key);
    match stop {
        Stop::Here(_, left) => Ok(size - left),
        Stop::Above(_, left) => Err(size - left),
        Stop::End => Err(size),
    }
}

// The change that puts a key in at the spot that `find_spot` answers: an entry that has the key gives way.
pub fn put_change(spot: Result<usize, usize>) -> Change
    ensures { result ≡ put_at spot }
{
    match spot {
        Ok(index) => Change {
            index,
            drops: true,
            adds: true,
        },
        Err(index) => Change {
            index,
            drops: false,
            adds: true,
        },
    }
}

// The cursor before the first entry of the span on the page.
pub fn start(page: usize) -> Cursor
    ensures { result ≡ record { index = 0; at = record { page = page; offset = 20 } } }
{
    Cursor {
        index: 0,
        at: Place { page, offset: 20 },
    }
}

// The place behind the entry here.
fn pass(image: &[u8], at: Place) -> Place
    requires { EntryThere image.now at }
    ensures { PassedOver image.now at result }
{
    let g = lengths(image, at);
    let first = g.after;
    place_after(image, first, g.key + g.value)
}

// The place of the next old entry that stays.
fn reach(image: &[u8], cursor: Cursor, change: Change) -> Place
    requires { Going image.now change cursor 1 }
    ensures { Reached image.now change cursor result }
{
    let at = cursor.at;
    if change.drops && cursor.index == change.index {
        return pass(image, at);
    }
    at
}

// Whether the entry at the cursor is the one that comes.
fn is_new(cursor: Cursor, change: Change) -> bool
    ensures { IsNew change cursor result }
{
    change.adds && cursor.index == change.index
}

// The next entry of the new list.
pub fn next_entry(image: &[u8], cursor: Cursor, change: Change) -> Next
    requires { Going image.now change cursor 1 }
    ensures { NextOf image.now change cursor result }
{
    let at = reach(image, cursor, change);
    let index = cursor.index + 1;
    if is_new(cursor, change) {
        return Next::New(Cursor { index, at });
    }
    let g = lengths(image, at);
    let first = g.after;
    let after = place_after(image, first, g.key + g.value);
    Next::Old(g, Cursor { index, at: after })
}
