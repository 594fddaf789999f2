// Places in the pages of a span: reading on over page breaks.
ghost use Rattle.std.specs.Prelude.{◌≡◌, ◌+◌, ◌-◌, ◌*◌, ◌≤◌};
ghost use Rattle.entries.specs.Places.{Enough, Moved, gap, Settled, Here, here, Stepped, Measured};

use pages::read::get;

// A page of a span, and an offset on it from 8 to 1024; at 1024 the next byte is the next page's first.
#[derive(Clone, Copy)]
pub struct Place {
    pub page: usize,
    pub offset: usize,
}

// A byte, and the place after it.
#[derive(Clone, Copy)]
pub struct Got {
    pub byte: u8,
    pub after: Place,
}

// The lengths of an entry's key and value, and the place after them.
#[derive(Clone, Copy)]
pub struct Sizes {
    pub key: usize,
    pub value: usize,
    pub after: Place,
}

// How many bytes are passed over from the offset on so that n bytes lie on one page.
pub fn gap(offset: usize, n: usize) -> usize
    requires { (offset ≤ 1024) × (n ≤ 1016) }
    ensures { result ≡ gap offset n }
{
    if 1024 < offset + n { 1024 - offset } else { 0 }
}

// The first place from here on where n bytes lie on one page.
pub fn settle(image: &[u8], at: Place, n: usize) -> Place
    requires { (1 ≤ n) × (n ≤ 1016) × Enough image.now at (gap at.offset n + n) }
    ensures { Settled image.now at n result }
{
    let page = at.page;
    let offset = at.offset;
    if 1024 < offset + n {
        let next = get::<u32>(image, page, 4);
        return Place {
            page: next,
            offset: 8,
        };
    }
    Place { page, offset }
}

// The n bytes from the place on, which lie on its page.
pub fn bytes_at(image: &[u8], at: Place, n: usize) -> &[u8]
    requires { Here image.now at n }
    ensures { result.now ≡ here image.now at n }
{
    let page = at.page;
    let offset = at.offset;
    let from = 1024 * (page - 1) + offset;
    let end = from + n;
    &image[from..end]
}

// The lengths of the entry that follows. Its four length bytes lie on one page.
pub fn lengths(image: &[u8], at: Place) -> Sizes
    requires { Enough image.now at (gap at.offset 4 + 4) }
    ensures { Measured image.now at result }
{
    let here = settle(image, at, 4);
    let page = here.page;
    let offset = here.offset;
    let key = get::<u16>(image, page, offset);
    let value = get::<u16>(image, page, offset + 2);
    Sizes {
        key,
        value,
        after: Place {
            page,
            offset: offset + 4,
        },
    }
}

// The place n bytes on.
pub fn forward(image: &[u8], at: Place, n: usize) -> Place
    requires { Enough image.now at n }
    ensures { Moved image.now at n result }
{
    let mut page = at.page;
    let mut offset = at.offset;
    let mut left = n;
    while 1024 - offset < left {
        left -= 1024 - offset;
        page = get::<u32>(image, page, 4);
        offset = 8;
    }
    Place {
        page,
        offset: offset + left,
    }
}

// The byte here, which may be the next page's first, and the place after it.
pub fn step(image: &[u8], at: Place) -> Got
    requires { Enough image.now at 1 }
    ensures { Stepped image.now at result }
{
    let here = settle(image, at, 1);
    let page = here.page;
    let offset = here.offset;
    let byte = image[1024 * (page - 1) + offset];
    Got {
        byte,
        after: Place {
            page,
            offset: offset + 1,
        },
    }
}
