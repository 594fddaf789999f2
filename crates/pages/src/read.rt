// Numbers, big endian: anywhere in a slice, and on a page.
ghost use Rattle.std.specs.Prelude.{◌≡◌, ◌+◌, ◌≤◌, length};
ghost use Rattle.blockfile.specs.Bytes.{pg, be64};
ghost use Rattle.pages.specs.Places.{Inside, Number};

use crate::word::Word;

// Eight bytes of any slice: only read and never told a bound, and so no `Word`. In this order of the two halves they are compiled to one load.
pub fn word64(bytes: &[u8], at: usize) -> usize
    requires { at + 8 ≤ length bytes.now }
    ensures { result ≡ be64 bytes.now at }
{
    u32::read(bytes, at + 4) + u32::read(bytes, at) * 4294967296
}

// The number at an offset of a page.
pub fn get<W: Word>(image: &[u8], page: usize, offset: usize) -> usize
    requires { Inside image.now page offset W.width }
    ensures { Number (W.value (pg image.now page) offset) W.bound result }
{
    W::read(image, 1024 * (page - 1) + offset)
}
