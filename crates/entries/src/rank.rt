// The rank of a key: its first eight bytes as a number, as if zeros followed it, and for numbers with the other sign. Where two keys
// differ in it, it has their order.
ghost use Rattle.std.specs.Prelude.{◌+◌, ◌≤◌};
ghost use Rattle.entries.specs.Keys.{Key, Prefixed};
ghost use Rattle.entries.specs.Sorted.{Ranked, RankMost};

use crate::place::Place;
use order::sort::{Sort, turn_of};
use pages::read::word64;

// The first eight bytes of a key of n bytes as a number. Eight bytes from the place on lie on its page; those behind the key are cut off.
fn prefix(image: &[u8], at: Place, n: usize) -> usize
    requires { Key image.now at n × (1 ≤ n) × (at.offset + 8 ≤ 1024) }
    ensures { Prefixed image.now at n result }
{
    let page = at.page;
    let offset = at.offset;
    let whole = word64(image, 1024 * (page - 1) + offset);
    if n < 8 {
        let behind = 64 - 8 * n;
        return whole >> behind << behind;
    }
    whole
}

// The rank of a key of n bytes, which has the order of its table.
pub fn rank(image: &[u8], at: Place, n: usize, sort: Sort) -> usize
    requires { Key image.now at n × (1 ≤ n) × (at.offset + 8 ≤ 1024) }
    ensures { Ranked sort image.now at n result }
{
    prefix(image, at, n).wrapping_add(turn_of(sort))
}

// A number that the rank of a key of n bytes is not above: the rank itself unless the page ends before eight bytes.
pub fn rank_most(image: &[u8], at: Place, n: usize, sort: Sort) -> usize
    requires { Key image.now at n × (1 ≤ n) }
    ensures { RankMost sort image.now at n result }
{
    if at.offset <= 1016 {
        rank(image, at, n, sort)
    } else {
        usize::MAX
    }
}
