// Bytes written to a page.
ghost use Rattle.std.specs.Prelude.{◌≡◌, [], ◌++◌, ◌+◌, ◌≤◌, ◌<◌, length, get_or, take, drop, replicate};
ghost use Rattle.std.proofs.lemmas.List.Edits.{sets};
ghost use Rattle.blockfile.specs.Bytes.{word32, write, padded};
ghost use Rattle.blockfile.specs.Marks.{marks};
ghost use Rattle.pages.specs.Kinds.{kind_at};
ghost use Rattle.pages.specs.Places.{Inside, Chunk};

use crate::mark::{Kind, mark};
use crate::word::Word;

// A number at an offset of a page.
pub fn put<W: Word>(image: &mut [u8], page: usize, offset: usize, v: usize)
    requires { Inside image.old page offset W.width }
    ensures { image.new ≡ write image.old page offset (W.digits v) }
{
    W::store(image, 1024 * (page - 1) + offset, v)
}

// All of src, over the bytes of any slice from `from` on. Byte by byte: the library's copy of a slice would have the archive for C need
// memmove from outside.
pub fn copy_bytes(into: &mut [u8], from: usize, src: &[u8])
    requires { from + length src.now ≤ length into.old }
    ensures { into.new ≡ sets into.old from src.now }
{
    for i in 0..src.len() {
        into[from + i] = src[i];
    }
}

// All of src.
pub fn put_bytes(image: &mut [u8], page: usize, offset: usize, src: &[u8])
    requires { Inside image.old page offset (length src.now) }
    ensures { image.new ≡ write image.old page offset src.now }
{
    copy_bytes(image, 1024 * (page - 1) + offset, src)
}

// n zeros.
pub fn put_zeros(image: &mut [u8], page: usize, offset: usize, n: usize)
    requires { Inside image.old page offset n }
    ensures { image.new ≡ write image.old page offset (replicate n 0) }
{
    let at = 1024 * (page - 1) + offset;
    let end = at + n;
    image[at..end].fill(0)
}

// The mark of a kind, at the start of the page.
pub fn put_mark(image: &mut [u8], page: usize, kind: Kind)
    requires { Inside image.old page 0 8 }
    ensures { image.new ≡ write image.old page 0 (get_or marks (kind_at kind) []) }
{
    let (number, length) = mark(kind);
    put_bytes(image, page, 0, &number.to_be_bytes()[..length])
}

// How many bytes of a stream of `len` bytes stand on its page from byte `from` on.
fn chunk(len: usize, from: usize) -> usize
    requires { from ≤ len }
    ensures { Chunk len from result }
{
    (len - from).min(1016)
}

// A page of a stream, written whole: its mark, its link, the bytes of src from byte `from` on, zeros where src ends.
pub fn put_page(image: &mut [u8], page: usize, kind: Kind, link: usize, src: &[u8], from: usize)
    requires { (length (get_or marks (kind_at kind) []) ≡ 4) × Inside image.old page 0 1024 × (from ≤ length src.now) }
    ensures { image.new ≡ write image.old page 0 (get_or marks (kind_at kind) [] ++ (word32 link ++ padded 1016 (take 1016 (drop from src.now)))) }
{
    put_mark(image, page, kind);
    put::<u32>(image, page, 4, link);
    let n = chunk(src.len(), from);
    let end = from + n;
    put_bytes(image, page, 8, &src[from..end]);
    put_zeros(image, page, 8 + n, 1016 - n)
}

// Zeroes the first n bytes.
pub fn clear(bytes: &mut [u8], n: usize)
    requires { n ≤ length bytes.old }
    ensures { bytes.new ≡ replicate n 0 ++ drop n bytes.old }
{
    bytes[..n].fill(0)
}
