// The entries of a span: lengths that fit, keys that rise.
ghost use Rattle.std.specs.Prelude.{List, ◌≡◌, ℕ, ◌≤◌};
ghost use Rattle.heads.specs.Claims.{Lent};
ghost use Rattle.order.specs.declared.sort.Sort.{Sort};
ghost use Rattle.order.specs.declared.sort.Sort.TheVariants.{Bytes, Numbers};
ghost use Rattle.order.specs.Sorts.{LengthsAre};
ghost use Rattle.entries.specs.Keys.{Key};
ghost use Rattle.entries.specs.Places.{Moved, Enough};
ghost use Rattle.spans.specs.Charts.{along, Paged, Spread};
ghost use Rattle.spans.specs.Entries.{Met, IsAbove, Ready, Entering, Tries, Skimming, Skims};

use entries::copy::number;
use entries::key::compare_keys;
use entries::place::{Place, gap, lengths};
use entries::rank::{rank, rank_most};
use heads::claim::from_head;
use order::sort::{Lengths, Sort, lengths_of, turned};
use pages::read::get;
use reader::place_after;

// The pages of a span as its entries are read: the image, its heads, the chart of the continuation pages, and how many these are.
#[derive(Clone, Copy)]
pub struct Pages<'a> {
    pub image: &'a [u8],
    pub scratch: &'a [u8],
    pub chart: &'a [u16; 256],
    pub more: usize,
}

// The last key met: its place, its length, 0 where there is none, and a number that its rank is not above.
#[derive(Clone, Copy)]
pub struct Last {
    pub at: Place,
    pub length: usize,
    pub rank: usize,
}

// Where reading has come to: a place, the bytes left from there on, and the last key met.
#[derive(Clone, Copy)]
pub struct Position {
    pub at: Place,
    pub left: usize,
    pub last: Last,
}

// An entry that was read on its page: the offset where it ends, and the rank of its key.
#[derive(Clone, Copy)]
pub struct Tried {
    pub end: usize,
    pub rank: usize,
}

// Entries that were passed on a page: their number, the offsets where the last one begins and ends, and the rank of its key. Without
// one, both offsets are where the first would begin, and the rank is that of the last key met.
#[derive(Clone, Copy)]
pub struct Passed {
    pub count: usize,
    pub before: usize,
    pub end: usize,
    pub rank: usize,
}

// Entries that were read: their number, and the position after them.
#[derive(Clone, Copy)]
pub struct Skimmed {
    pub count: usize,
    pub to: Position,
}

// Whether a key is above the last key met, by bytes.
fn above_bytes(image: &[u8], last: Last, at: Place, key: usize) -> bool
    requires { Met Bytes image.now last × Key image.now at key }
    ensures { IsAbove Bytes image.now last at key result }
{
    compare_keys(image, last.at, last.length, at, key).is_lt()
}

// Whether a key is a number above the last key met.
fn above_number(image: &[u8], last: Last, at: Place, key: usize) -> bool
    requires { Met Numbers image.now last × Key image.now at key }
    ensures { IsAbove Numbers image.now last at key result }
{
    key == 4 && (last.length == 0 || turned(number(image, last.at)) < turned(number(image, at)))
}

// Whether a key is as long as the keys of its table are, and above the last key met.
fn is_above(image: &[u8], sort: Sort, last: Last, at: Place, key: usize) -> bool
    requires { Met sort image.now last × Key image.now at key }
    ensures { IsAbove sort image.now last at key result }
{
    match sort {
        Sort::Numbers => above_number(image, last, at, key),
        Sort::Bytes => above_bytes(image, last, at, key),
    }
}

// The continuation page of this index: one of the chart, and from there at most fifteen links of the heads.
fn nth_page(scratch: &[u8], chart: &[u16; 256], index: usize) -> usize
    requires { (img : List ℕ) × ((p : ℕ) × Paged scratch.now chart.now img p index) }
    ensures { (img : List ℕ) (p : ℕ) → Paged scratch.now chart.now img p index → result ≡ along img p index }
{
    let mut page = chart[index / 16] as usize;
    for _ in 0..index % 16 {
        page = from_head::<u32>(scratch, page, 4);
    }
    page
}

// The place n bytes on. `left` bytes are left from here on up to the end of the span's pages. Where many are passed, the page is
// found by its index among the continuation pages.
fn leap<'a>(pages: Pages<'a>, at: Place, left: usize, n: usize) -> Place
    requires { Lent pages.image.now pages.scratch.now × Spread pages.image.now pages.chart.now pages.more at left × (n ≤ left) }
    ensures { Moved pages.entry.image.now at n result }
{
    if n <= 16256 {
        return place_after(pages.image, at, n);
    }
    let passed = 1016 * pages.more - (left - n);
    let index = (passed - 1) / 1016;
    let page = nth_page(pages.scratch, pages.chart, index);
    Place {
        page,
        offset: 8 + (passed - 1016 * index),
    }
}

// Reads the entry that follows. The bytes left go up to the end of the span's pages.
fn verify_entry<'a>(pages: Pages<'a>, from: Position, sort: Sort) -> Option<Position>
    requires { Lent pages.image.now pages.scratch.now × Ready sort pages.image.now from.at from.left from.last × Spread pages.image.now pages.chart.now pages.more from.at from.left }
    ensures { Entering sort pages.entry.image.now from.at from.last 1 result }
{
    let image = pages.image;
    let at = from.at;
    let left = from.left;
    let skipped = gap(at.offset, 4);
    if left < skipped + 4 {
        return None;
    }
    let sizes = lengths(image, at);
    let start = sizes.after;
    let key = sizes.key;
    let value = sizes.value;
    let both = key + value;
    if left - skipped - 4 < both {
        return None;
    }
    if !is_above(image, sort, from.last, start, key) {
        return None;
    }
    let after = leap(pages, start, left - skipped - 4, both);
    let rank = rank_most(image, start, key, sort);
    Some(Position {
        at: after,
        left: left - skipped - 4 - both,
        last: Last {
            at: start,
            length: key,
            rank,
        },
    })
}

// Tries the entry that follows. It is read if it lies on the page whole, with eight bytes from the start of its key on, if its key is
// as long as `allowed` has it, and if its rank is above `high`; else it is left.
fn try_entry(image: &[u8], at: Place, sort: Sort, allowed: Lengths, high: usize) -> Option<Tried>
    requires { Enough image.now at 0 × LengthsAre sort allowed }
    ensures { Tries sort image.now at high result }
{
    let page = at.page;
    let offset = at.offset;
    if 1012 < offset {
        return None;
    }
    let key = get::<u16>(image, page, offset);
    let value = get::<u16>(image, page, offset + 2);
    let start = Place {
        page,
        offset: offset + 4,
    };
    let end = start.offset + key + value;
    if 1024 < end {
        return None;
    }
    if key < allowed.least || allowed.most < key {
        return None;
    }
    let rank = rank(image, start, key, sort);
    if rank <= high {
        return None;
    }
    Some(Tried { end, rank })
}

// What is told of the entries that were passed on the page of this place, from there on.
fn conclude(image: &[u8], from: Position, passed: Passed) -> Skimmed
    requires { (sort : Sort) × Skimming sort image.now from.at from.left from.last passed }
    ensures { (sort : Sort) → Skimming sort image.now from.at from.left from.last passed → Skims sort image.now from.at from.last passed.count result }
{
    let count = passed.count;
    let before = passed.before;
    let end = passed.end;
    if count == 0 {
        return Skimmed { count, to: from };
    }
    let page = from.at.page;
    let length = get::<u16>(image, page, before);
    let key = Place {
        page,
        offset: before + 4,
    };
    let to = Position {
        at: Place { page, offset: end },
        left: from.left - (end - from.at.offset),
        last: Last {
            at: key,
            length,
            rank: passed.rank,
        },
    };
    Skimmed { count, to }
}

// Passes entries, at most `size` of them, up to one that does not lie on the page whole or whose rank does not tell its order. Only
// offsets, a count and the rank change from entry to entry; in a function of its own all of it stays in registers.
#[inline(never)]
fn pass(image: &[u8], from: Position, size: usize, sort: Sort) -> Passed
    requires { Ready sort image.now from.at from.left from.last }
    ensures { Skimming sort image.now from.at from.left from.last result × (result.count ≤ size) }
{
    let allowed = lengths_of(sort);
    let page = from.at.page;
    let mut passed = Passed {
        count: 0,
        before: from.at.offset,
        end: from.at.offset,
        rank: from.last.rank,
    };
    for _ in 0..size {
        let here = Place {
            page,
            offset: passed.end,
        };
        let Some(entry) = try_entry(image, here, sort, allowed, passed.rank) else {
            break;
        };
        passed = Passed {
            count: passed.count + 1,
            before: passed.end,
            end: entry.end,
            rank: entry.rank,
        };
    }
    passed
}

// Reads entries, at most `size` of them, up to one that cannot be passed. Where none is to be passed, none is tried.
fn skim(image: &[u8], from: Position, size: usize, sort: Sort) -> Skimmed
    requires { Ready sort image.now from.at from.left from.last }
    ensures { Skims sort image.now from.at from.last size result }
{
    if size == 0 {
        return Skimmed { count: 0, to: from };
    }
    conclude(image, from, pass(image, from, size, sort))
}

// How many of the `left` entries that follow a key of this rank are skimmed: none where the key before has the same rank, since the
// next one then likely has it too and would be left.
fn run_after(before: usize, rank: usize, left: usize) -> usize
    ensures { result ≤ left }
{
    if before == rank { 0 } else { left }
}

// Reads `size` entries. A turn reads those that are skimmed and the one that was left, so the loop is over no index.
pub fn verify_entries<'a>(
    pages: Pages<'a>,
    from: Position,
    size: usize,
    sort: Sort,
) -> Option<Position>
    requires { Lent pages.image.now pages.scratch.now × Ready sort pages.image.now from.at from.left from.last × Spread pages.image.now pages.chart.now pages.more from.at from.left }
    ensures { Entering sort pages.entry.image.now from.at from.last size result }
{
    let mut here = from;
    let mut run = size;
    let mut i = 0;
    // By hand: the step is as many entries as were read.
    while i < size {
        let skimmed = skim(pages.image, here, run, sort);
        let to = skimmed.to;
        if size - i <= skimmed.count {
            return Some(to);
        }
        here = verify_entry(pages, to, sort)?;
        i += skimmed.count + 1;
        run = run_after(to.last.rank, here.last.rank, size - i);
    }
    Some(here)
}
