// Bytes of a span handed out: a number that may lie over a page break, and a copy of any length.
ghost use Rattle.std.specs.Prelude.{◌≡◌, ◌+◌, ◌≤◌, length};
ghost use Rattle.entries.specs.Places.{Enough, Numbered, Copied};

use crate::place::{Place, step};
use pages::read::get;
use pages::write::copy_bytes;

// The four bytes here as a number, byte by byte.
pub fn number(image: &[u8], at: Place) -> usize
    requires { Enough image.now at 4 }
    ensures { Numbered image.now at result }
{
    let a = step(image, at);
    let b = step(image, a.after);
    let c = step(image, b.after);
    let d = step(image, c.after);
    let high = usize::from(a.byte) * 256 + usize::from(b.byte);
    let low = usize::from(c.byte) * 256 + usize::from(d.byte);
    high * 65536 + low
}

// Copies the n bytes from the place on to the start of `into`, page part by page part.
pub fn copy(image: &[u8], at: Place, n: usize, into: &mut [u8])
    requires { Enough image.now at n × (n ≤ length into.old) }
    ensures { Copied image.now at n into.old into.new }
{
    let mut page = at.page;
    let mut offset = at.offset;
    let mut left = n;
    while 1024 - offset < left {
        let from = 1024 * (page - 1) + offset;
        let end = 1024 * page;
        copy_bytes(into, n - left, &image[from..end]);
        left -= 1024 - offset;
        page = get::<u32>(image, page, 4);
        offset = 8;
    }
    let from = 1024 * (page - 1) + offset;
    let end = from + left;
    copy_bytes(into, n - left, &image[from..end]);
}
