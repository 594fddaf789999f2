// The free list: a page taken from it, a page given back, the pages taken next; the count of free pages kept.
ghost use Rattle.std.specs.Prelude.{◌≡◌, [], ◌∷◌, ◌≤◌, ◌<◌};
ghost use Rattle.blockfile.specs.Bytes.{apply};
ghost use Rattle.blockfile.specs.Plan.{kept_on};
ghost use Rattle.laws.proofs.FreeRead.{list_writes, block_writes};
ghost use Rattle.pages.specs.Places.{Inside};
ghost use Rattle.pages.specs.Taking.{Takeable, Took, Giveable, Gave, Ahead, TakenAfter};

use crate::mark::Kind;
use crate::read::get;
use crate::write::{put, put_mark};

// Takes a page from the free list, which must not be empty.
pub fn take_page(image: &mut [u8]) -> usize
    requires { Takeable image.old }
    ensures { Took image.old result image.new }
{
    let first = get::<u32>(image, 1, 16);
    let count = get::<u32>(image, first, 12);
    if count == 0 {
        let next = get::<u32>(image, first, 8);
        put::<u32>(image, 1, 16, next);
        return first;
    }
    let last = get::<u32>(image, first, 12 + 4 * count);
    put::<u32>(image, first, 12, count - 1);
    last
}

// The page that is taken after `skip` others. A block gives the pages that it lists, the last one first, then itself.
pub fn taken_after(image: &[u8], skip: usize) -> usize
    requires { Ahead image.now skip }
    ensures { TakenAfter image.now skip result }
{
    let mut block = get::<u32>(image, 1, 16);
    let mut count = get::<u32>(image, block, 12);
    let mut left = skip;
    while count < left {
        left -= count + 1;
        block = get::<u32>(image, block, 8);
        count = get::<u32>(image, block, 12);
    }
    if left == count {
        return block;
    }
    get::<u32>(image, block, 12 + 4 * (count - left))
}

// The page is marked free and appended to the block `first`, which lists `count` pages.
fn list_page(image: &mut [u8], page: usize, first: usize, count: usize)
    requires { Inside image.old page 0 8 × Inside image.old first 0 1024 × (count < 252) }
    ensures { image.new ≡ apply (list_writes page first count) image.old }
{
    put_mark(image, page, Kind::Free);
    put::<u32>(image, first, 16 + 4 * count, page);
    put::<u32>(image, first, 12, count + 1)
}

// The page becomes the first block, with count 0, before the block `first`.
fn block_page(image: &mut [u8], page: usize, first: usize)
    requires { Inside image.old page 0 1024 }
    ensures { image.new ≡ apply (block_writes page first) image.old }
{
    put_mark(image, page, Kind::Block);
    put::<u32>(image, page, 8, first);
    put::<u32>(image, page, 12, 0);
    put::<u32>(image, 1, 16, page)
}

// Gives a page back to the free list.
pub fn give_page(image: &mut [u8], page: usize)
    requires { Giveable image.old page }
    ensures { Gave image.old page image.new }
{
    let first = get::<u32>(image, 1, 16);
    if first == 0 {
        block_page(image, page, first);
        return;
    }
    let count = get::<u32>(image, first, 12);
    if count < 252 {
        list_page(image, page, first, count);
        return;
    }
    block_page(image, page, first)
}

// Writes the superblock's count of `free` free pages, which is one more: 0 stands for a count that is not kept.
pub fn keep_count(image: &mut [u8], free: usize)
    requires { Inside image.old 1 28 4 × (free ≤ 4096) }
    ensures { image.new ≡ apply (kept_on free ∷ []) image.old }
{
    put::<u32>(image, 1, 28, free + 1)
}
