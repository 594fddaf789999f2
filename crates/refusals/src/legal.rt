// Which names, keys and values are allowed: the tests of the refusals 4 and 5.
ghost use Rattle.std.specs.Prelude.{◌≡◌, not, ◌||◌, [], length, ltb};
ghost use Rattle.blockfile.specs.Order.{within, name_rule, same};
ghost use Rattle.order.specs.Sorts.{rule_as};

use entries::key::printable_bytes;
use order::sort::{Sort, lengths_of};

// Whether n is one of lo to hi, both included.
pub fn is_within(lo: usize, hi: usize, n: usize) -> bool
    ensures { result ≡ within lo hi n }
{
    lo <= n && n <= hi
}

// Whether the bytes are the name of a table.
pub fn is_name(name: &[u8]) -> bool
    ensures { result ≡ name_rule.allowed name.now }
{
    is_within(1, 255, name.len()) && printable_bytes(name)
}

// Whether the bytes are a key of a table whose keys sort so.
pub fn is_key(sort: Sort, key: &[u8]) -> bool
    ensures { result ≡ (rule_as sort).allowed key.now }
{
    let lengths = lengths_of(sort);
    is_within(lengths.least, lengths.most, key.len())
}

// Whether next can be asked: behind a key, or with no bytes for the first.
pub fn is_key_or_empty(sort: Sort, key: &[u8]) -> bool
    ensures { result ≡ (same key.now [] || (rule_as sort).allowed key.now) }
{
    key.is_empty() || is_key(sort, key)
}

// Whether the bytes can be a value.
pub fn is_value(value: &[u8]) -> bool
    ensures { result ≡ not (ltb 65535 (length value.now)) }
{
    value.len() <= 65535
}
