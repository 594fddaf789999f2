// A span written whole, on the pages of a list.
ghost use Rattle.std.specs.Prelude.{◌*◌, ◌≤◌, length};
ghost use Rattle.draw.specs.Writing.{FirstAt, Writable, WroteChain};

use crate::list::number_at;
use pages::mark::Kind;
use pages::write::put_page;

// The number at the index; 0 at the end of the list.
fn first_at(numbers: &[u8], i: usize, end: usize) -> usize
    requires { (i ≤ end) × (4 * end ≤ length numbers.now) }
    ensures { FirstAt numbers.now i end result }
{
    if i < end { number_at(numbers, i) } else { 0 }
}

// Writes `count` pages, those from index `from` of the list on: the first as a span's page, the others as its continuation
// pages, each linked to the next, with the bytes of the stream.
pub fn write_chain(image: &mut [u8], numbers: &[u8], from: usize, count: usize, stream: &[u8])
    requires { Writable image.old numbers.now from count stream.now }
    ensures { WroteChain image.old numbers.now from count stream.now image.new }
{
    let end = from + count;
    let mut kind = Kind::Span;
    let mut page = first_at(numbers, from, end);
    for i in 0..count {
        let next = first_at(numbers, from + i + 1, end);
        put_page(image, page, kind, next, stream, 1016 * i);
        kind = Kind::Continuation;
        page = next;
    }
}
