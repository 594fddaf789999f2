// Key and value bytes run on at offset 8 of the next continuation page: a reader holds the image and the place in it from where
// to read on. Each function over a reader is thin; `forward` and `copy` have the work. Whoever has an image and a place calls `place_after` or `copy_from`, which need no reader.
#![tactic(auto)]

ghost use Rattle.std.specs.Prelude.{◌≡◌, ◌≤◌, length};
ghost use Rattle.entries.specs.Places.{Enough, Moved, Copied};
ghost use Rattle.reader.specs.Readers.{place_of};

use entries::copy::copy;
use entries::place::{Place, forward};

// The image, and the page and offset of the next byte, which is the form that document 01 gives; as for a place, the offset may be 1024.
#[derive(Clone, Copy)]
pub struct Reader<'a> {
    pub image: &'a [u8],
    pub page: usize,
    pub offset: usize,
}

pub fn reader_at<'a>(image: &'a [u8], page: usize, offset: usize) -> Reader<'a>
    ensures { (result.image ≡ image.entry) × ((result.page ≡ page) × (result.offset ≡ offset)) }
{
    Reader {
        image,
        page,
        offset,
    }
}

// The reader behind the next n bytes.
pub fn skip<'a>(r: Reader<'a>, n: usize) -> Reader<'a>
    requires { Enough r.image.now (place_of r) n }
    ensures { (result.image ≡ r.entry.image) × Moved r.entry.image.now (place_of r.entry) n (place_of result) }
{
    let at = Place {
        page: r.page,
        offset: r.offset,
    };
    let after = forward(r.image, at, n);
    Reader {
        image: r.image,
        page: after.page,
        offset: after.offset,
    }
}

// The place n bytes on.
pub fn place_after(image: &[u8], at: Place, n: usize) -> Place
    requires { Enough image.now at n }
    ensures { Moved image.now at n result }
{
    let behind = skip(reader_at(image, at.page, at.offset), n);
    Place {
        page: behind.page,
        offset: behind.offset,
    }
}

// Copies the next n bytes to the start of `into`.
pub fn copy_next<'a, 'b>(r: Reader<'a>, n: usize, into: &'b mut [u8])
    requires { Enough r.image.now (place_of r) n × (n ≤ length into.old) }
    ensures { Copied r.entry.image.now (place_of r.entry) n into.old into.new }
{
    let at = Place {
        page: r.page,
        offset: r.offset,
    };
    copy(r.image, at, n, into)
}

// Copies the n bytes from the place on to the start of `into`.
pub fn copy_from(image: &[u8], at: Place, n: usize, into: &mut [u8])
    requires { Enough image.now at n × (n ≤ length into.old) }
    ensures { Copied image.now at n into.old into.new }
{
    copy_next(reader_at(image, at.page, at.offset), n, into)
}
