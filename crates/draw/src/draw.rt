// Pages drawn for a call: first the old continuation pages of the span that it rewrites, in chain order, then free pages.
// Old pages that are left over are given back in chain order.
ghost use Rattle.std.specs.Prelude.{◌+◌, ◌*◌, ◌≤◌, length};
ghost use Rattle.draw.specs.Hands.{Chained, KeptFor, Stocked, TookAll, GaveChain, Drawable, Drew};

use crate::list::set_number;
use pages::free::{give_page, take_page};
use pages::read::get;

// How many old pages are kept, and the first one that is left over, 0 for none as a page's link has it.
#[derive(Clone, Copy)]
struct Kept {
    count: usize,
    next: usize,
}

// Keeps the first `wanted` pages of the chain, or all if there are fewer: stores their numbers from index `from` on.
// The loop walks along the links and ends with the chain or the count: it is no range of numbers.
fn keep_pages(image: &[u8], first: usize, wanted: usize, numbers: &mut [u8], from: usize) -> Kept
    requires { Chained image.now first × (4 * (from + wanted) ≤ length numbers.old) }
    ensures { KeptFor image.now first wanted numbers.old from result numbers.new }
{
    let mut next = first;
    let mut count = 0;
    while count < wanted && next != 0 {
        set_number(numbers, from + count, next);
        next = get::<u32>(image, next, 4);
        count += 1;
    }
    Kept { count, next }
}

// Takes `count` pages from the free list and stores their numbers from index `from` on.
fn take_pages(image: &mut [u8], count: usize, numbers: &mut [u8], from: usize)
    requires { Stocked image.old count × (4 * (from + count) ≤ length numbers.old) }
    ensures { TookAll image.old count numbers.old from image.new numbers.new }
{
    for i in 0..count {
        let page = take_page(image);
        set_number(numbers, from + i, page);
    }
}

// Gives back a chain of continuation pages. Answers how many. The link of a page is read before the page is given back, which
// overwrites it. The loop walks along the links: how many there are is not known before.
pub fn give_chain(image: &mut [u8], first: usize) -> usize
    requires { Chained image.old first }
    ensures { GaveChain image.old first result image.new }
{
    let mut page = first;
    let mut given = 0;
    while page != 0 {
        let next = get::<u32>(image, page, 4);
        give_page(image, page);
        page = next;
        given += 1;
    }
    given
}

// Draws `wanted` pages and stores their numbers from index `from` on; `first` is the first old page, 0 for none. Answers how many
// old pages were left over and given back.
pub fn draw_pages(
    image: &mut [u8],
    first: usize,
    wanted: usize,
    numbers: &mut [u8],
    from: usize,
) -> usize
    requires { Drawable image.old first wanted × (4 * (from + wanted) ≤ length numbers.old) }
    ensures { Drew image.old first wanted numbers.old from result image.new numbers.new }
{
    let kept = keep_pages(image, first, wanted, numbers, from);
    take_pages(image, wanted - kept.count, numbers, from + kept.count);
    give_chain(image, kept.next)
}
