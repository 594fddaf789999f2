// The search by the towers beside the plain search, in the tables of an accepted image.
ghost use Rattle.std.specs.Prelude.{◌<◌, ◌≤◌, length, IfOk};
ghost use Rattle.blockfile.specs.WellFormed.{Accepted};
ghost use Rattle.search.specs.Tables.{ReadingBy};

use blockfile::Refusal;
use order::sort::sort_of;
use pages::read::get;
use refusals::answer::hand_over;
use search::next::next_key;
use search::table::{METAINDEX, TableRef, find_by_towers, find_span, find_table};

// How many keys there were, how many were searched for, and for how many of these the searches gave different spans.
#[derive(Clone, Copy, Default)]
pub struct Tally {
    pub keys: u64,
    pub searches: u64,
    pub different: u64,
}

// Both searches for one key.
fn compare(image: &[u8], table: TableRef, key: &[u8], tally: &mut Tally)
    requires { ReadingBy image.now table }
{
    let plain = find_span(image, table, key);
    let by_towers = find_by_towers(image, table, key);
    tally.searches = tally.searches.wrapping_add(1);
    if plain != by_towers {
        tally.different = tally.different.wrapping_add(1);
    }
}

// For the key with `by` added to the byte at the index, modulo 256.
fn compare_changed(
    image: &[u8],
    table: TableRef,
    key: &mut [u8],
    index: usize,
    by: u8,
    tally: &mut Tally,
)
    requires { ReadingBy image.now table × (index < length key.old) }
{
    let byte = key[index];
    key[index] = byte.wrapping_add(by);
    compare(image, table, key, tally);
    key[index] = byte;
}

// For a key of the table, for the keys before and behind it with the same number of bytes, and for one far from it.
fn compare_beside(image: &[u8], table: TableRef, key: &mut [u8], tally: &mut Tally)
    requires { ReadingBy image.now table }
{
    compare(image, table, key, tally);
    let n = key.len();
    if n == 0 {
        return;
    }
    compare_changed(image, table, key, n - 1, 255, tally);
    compare_changed(image, table, key, n - 1, 1, tally);
    compare_changed(image, table, key, 0, 128, tally);
    tally.keys = tally.keys.wrapping_add(1);
}

// Copies the smallest key above the first n bytes of the buffer to its start, and answers its length, if there is one.
fn copy_above(image: &[u8], table: TableRef, buffer: &mut [u8], n: usize) -> Result<usize, Refusal>
    requires { ReadingBy image.now table × (n ≤ length buffer.old) }
    ensures { IfOk result (λ m. m ≤ length buffer.old) }
{
    let found = next_key(image, table, &buffer[..n]);
    hand_over(image, found, buffer)
}

// For the empty key, which is below all, and for every key of the table and those beside it. Each key is copied to the buffer.
fn compare_table(image: &[u8], table: TableRef, buffer: &mut [u8], tally: &mut Tally)
    requires { ReadingBy image.now table }
{
    let mut n = 0;
    compare(image, table, &buffer[..n], tally);
    for _ in 0..get::<u32>(image, table.root, 16) {
        let Ok(m) = copy_above(image, table, buffer, n) else {
            return;
        };
        n = m;
        compare_beside(image, table, &mut buffer[..n], tally);
    }
}

// In the table of this name.
fn compare_named(image: &[u8], name: &[u8], buffer: &mut [u8], tally: &mut Tally)
    requires { Accepted image.now }
{
    let Some(root) = find_table(image, name) else {
        return;
    };
    let sort = sort_of(name);
    compare_table(image, TableRef { root, sort }, buffer, tally)
}

// In the metaindex and in every table. A name is in one buffer while the keys of its table are in the other.
pub fn compare_tables(image: &[u8], name: &mut [u8], buffer: &mut [u8]) -> Tally
    requires { Accepted image.now }
{
    let mut tally = Tally::default();
    compare_table(image, METAINDEX, buffer, &mut tally);
    let mut n = 0;
    for _ in 0..get::<u32>(image, METAINDEX.root, 16) {
        let Ok(m) = copy_above(image, METAINDEX, name, n) else {
            return tally;
        };
        n = m;
        compare_named(image, &name[..n], buffer, &mut tally);
    }
    tally
}
