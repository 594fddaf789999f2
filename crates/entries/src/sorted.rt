// Keys on the pages of a span, in the order of their table: by bytes, or as numbers.
ghost use Rattle.std.specs.Prelude.{◌≡◌, ◌≤◌};
ghost use Rattle.entries.specs.Keys.{Key};
ghost use Rattle.entries.specs.Sorted.{SortAt, SignAt, ComparedAs};

use crate::key::compare_slice;
use crate::place::{Place, step};
use order::sort::{Sort, sign_by, sign_in, sort_by};
use std::cmp::Ordering;

// How the keys of the table sort whose name is the key here.
pub fn sort_at(image: &[u8], at: Place, n: usize) -> Sort
    requires { Key image.now at n × (1 ≤ n) }
    ensures { SortAt image.now at n result }
{
    let g = step(image, at);
    sort_by(g.byte)
}

// The sign of a key, which is compared before its bytes.
fn sign_at(image: &[u8], at: Place, n: usize, sort: Sort) -> usize
    requires { Key image.now at n }
    ensures { SignAt sort image.now at n result }
{
    match sort {
        Sort::Bytes => 0,
        Sort::Numbers => {
            if n == 0 {
                return 0;
            }
            let g = step(image, at);
            sign_by(g.byte)
        }
    }
}

// The order of the key of m bytes at a and the given key, as the keys of their table sort.
pub fn compare_as(image: &[u8], a: Place, m: usize, sort: Sort, key: &[u8]) -> Ordering
    requires { Key image.now a m }
    ensures { ComparedAs sort image.now a m key.now result }
{
    let order = sign_at(image, a, m, sort).cmp(&sign_in(sort, key));
    match order {
        Ordering::Equal => compare_slice(image, a, m, key),
        _ => order,
    }
}
