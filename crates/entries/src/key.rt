// Keys on the pages of a span: their order, and whether they are names. A key that lies on one page is read where it stands, any
// other over the page breaks.
ghost use Rattle.std.specs.Prelude.{◌≡◌, ◌<◌, ◌≤◌};
ghost use Rattle.blockfile.specs.Order.{all_within};
ghost use Rattle.order.specs.Bytes.{ByWords};
ghost use Rattle.entries.specs.Places.{Here, here};
ghost use Rattle.entries.specs.Keys.{Key, Compared, ComparedTo, Printed, Together, Near, OnPage};

use crate::place::{Place, bytes_at, settle, step};
use order::bytes::compare_bytes;
use std::cmp::Ordering;

// Whether all bytes are of 21 to 7e hex.
pub fn printable_bytes(x: &[u8]) -> bool
    ensures { result ≡ all_within 0x21 0x7e x.now }
{
    x.iter().all(|&b| 0x21 <= b && b <= 0x7e)
}

// Whether a key of n bytes lies on one page. An empty key has no place.
fn on_page(at: Place, n: usize) -> bool
    requires { Near at n }
    ensures { OnPage at n result }
{
    n != 0 && n <= 1024 - at.offset
}

// The order of two keys, each on one page.
fn compare_here(image: &[u8], a: Place, m: usize, b: Place, n: usize) -> Ordering
    requires { Here image.now a m × Here image.now b n }
    ensures { ByWords (here image.now a m) (here image.now b n) result }
{
    compare_bytes(bytes_at(image, a, m), bytes_at(image, b, n))
}

// How many bytes of two keys, of which m and n are left, lie from these offsets on with no page break in either.
fn together(a: usize, m: usize, b: usize, n: usize) -> usize
    requires { (1 ≤ m) × (1 ≤ n) × (a < 1024) × (b < 1024) }
    ensures { Together a m b n result }
{
    m.min(1024 - a).min(n.min(1024 - b))
}

// The order of two keys over page breaks, part by part, each on one page in both.
fn compare_across(image: &[u8], a: Place, m: usize, b: Place, n: usize) -> Ordering
    requires { Key image.now a m × Key image.now b n }
    ensures { Compared image.now a m b n result }
{
    let mut x = a;
    let mut y = b;
    let mut i = m;
    let mut j = n;
    while i != 0 && j != 0 {
        let u = settle(image, x, 1);
        let v = settle(image, y, 1);
        let w = together(u.offset, i, v.offset, j);
        let order = compare_here(image, u, w, v, w);
        let Ordering::Equal = order else {
            return order;
        };
        x = Place {
            page: u.page,
            offset: u.offset + w,
        };
        y = Place {
            page: v.page,
            offset: v.offset + w,
        };
        i -= w;
        j -= w;
    }
    i.cmp(&j)
}

// The order of the key of m bytes at a and the key of n bytes at b.
pub fn compare_keys(image: &[u8], a: Place, m: usize, b: Place, n: usize) -> Ordering
    requires { Key image.now a m × Key image.now b n }
    ensures { Compared image.now a m b n result }
{
    if on_page(a, m) && on_page(b, n) {
        return compare_here(image, a, m, b, n);
    }
    compare_across(image, a, m, b, n)
}

// The order of a key over page breaks and the given key, part by part.
fn compare_slice_across(image: &[u8], a: Place, m: usize, key: &[u8]) -> Ordering
    requires { Key image.now a m }
    ensures { ComparedTo image.now a m key.now result }
{
    let mut x = a;
    let mut i = m;
    let mut j = 0;
    while i != 0 && j < key.len() {
        let u = settle(image, x, 1);
        let w = together(u.offset, i, 0, key.len() - j);
        let end = j + w;
        let order = compare_bytes(bytes_at(image, u, w), &key[j..end]);
        let Ordering::Equal = order else {
            return order;
        };
        x = Place {
            page: u.page,
            offset: u.offset + w,
        };
        i -= w;
        j = end;
    }
    i.cmp(&(key.len() - j))
}

// The order of the key of m bytes at a and the given key.
pub fn compare_slice(image: &[u8], a: Place, m: usize, key: &[u8]) -> Ordering
    requires { Key image.now a m }
    ensures { ComparedTo image.now a m key.now result }
{
    if on_page(a, m) {
        return compare_bytes(bytes_at(image, a, m), key);
    }
    compare_slice_across(image, a, m, key)
}

// Whether the n bytes are all of 21 to 7e hex, byte by byte over page breaks.
fn printable_across(image: &[u8], at: Place, n: usize) -> bool
    requires { Key image.now at n }
    ensures { Printed image.now at n result }
{
    let mut x = at;
    for _ in 0..n {
        let g = step(image, x);
        if g.byte < 0x21 || 0x7e < g.byte {
            return false;
        }
        x = g.after;
    }
    true
}

// Whether the key of n bytes has only bytes of 21 to 7e hex, as a name has.
pub fn printable(image: &[u8], at: Place, n: usize) -> bool
    requires { Key image.now at n }
    ensures { Printed image.now at n result }
{
    if on_page(at, n) {
        return printable_bytes(bytes_at(image, at, n));
    }
    printable_across(image, at, n)
}
