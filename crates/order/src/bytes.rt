// Two byte strings compared: by blocks of 64 bytes while these are the same, by words of eight, and the bytes left over one by one.
ghost use Rattle.std.specs.Prelude.{true, ◌≡◌, ◌+◌, ◌≤◌, length};
ghost use Rattle.order.specs.Bytes.{order, ByWords, SameFrom, Alike};

use pages::read::word64;
use std::cmp::Ordering;

// Whether two strings have the same 64 bytes from there on. All of them are looked at, so that the compiler takes many at a time.
fn same_block(x: &[u8], y: &[u8], from: usize) -> bool
    requires { (from + 64 ≤ length x.now) × (from + 64 ≤ length y.now) }
    ensures { result ≡ true → SameFrom x.now y.now from (from + 64) }
{
    let mut differing = 0;
    for i in 0..64 {
        differing |= x[from + i] ^ y[from + i];
    }
    differing == 0
}

// A number of bytes that two strings begin with alike, n at most, and n where their first n bytes are the same and at least two
// blocks; fewer are sooner compared by words. The last block ends at n, so that it may overlap with the one before.
fn same_blocks(x: &[u8], y: &[u8], n: usize) -> usize
    requires { (n ≤ length x.now) × (n ≤ length y.now) }
    ensures { (result ≤ n) × SameFrom x.now y.now 0 result }
{
    if n < 128 {
        return 0;
    }
    // By hand: a step of 64, and the block at which it ends is an answer.
    let mut i = 0;
    while i < n - 64 {
        if !same_block(x, y, i) {
            return i;
        }
        i += 64;
    }
    if same_block(x, y, n - 64) { n } else { i }
}

// The order of two strings whose first `from` bytes are the same: byte by byte up to n, and then by their lengths.
fn compare_rest(x: &[u8], y: &[u8], n: usize, from: usize) -> Ordering
    requires { Alike x.now y.now n from }
    ensures { result ≡ order x.now y.now }
{
    for i in from..n {
        let order = x[i].cmp(&y[i]);
        let Ordering::Equal = order else {
            return order;
        };
    }
    x.len().cmp(&y.len())
}

// The same by whole words, and the bytes left over one by one.
fn compare_words(x: &[u8], y: &[u8], n: usize, from: usize) -> Ordering
    requires { Alike x.now y.now n from }
    ensures { result ≡ order x.now y.now }
{
    // By hand: a step of eight, and the rest begins where it ends.
    let mut i = from;
    while 8 <= n - i {
        let order = word64(x, i).cmp(&word64(y, i));
        let Ordering::Equal = order else {
            return order;
        };
        i += 8;
    }
    compare_rest(x, y, n, i)
}

// The order of two byte strings. By hand and not by `cmp` of the slices: its contract says that it goes by words.
pub fn compare_bytes(x: &[u8], y: &[u8]) -> Ordering
    ensures { ByWords x.now y.now result }
{
    let n = x.len().min(y.len());
    compare_words(x, y, n, same_blocks(x, y, n))
}
