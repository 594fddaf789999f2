// The next key of a table.
ghost use Rattle.search.specs.Tables.{ReadingBy, AboveIn};

use crate::span::{Extent, key_above, key_of};
use crate::table::{TableRef, find_by_towers};
use entries::place::Place;
use pages::read::get;

// The smallest key above the given one in the table; of all keys, for the empty one.
pub fn next_key(image: &[u8], table: TableRef, key: &[u8]) -> Option<Extent>
    requires { ReadingBy image.now table }
    ensures { AboveIn image.now table key.now result }
{
    let page = find_by_towers(image, table, key);
    if let Some(here) = key_above(image, page, table.sort, key) {
        return Some(here);
    }
    let next = get::<u32>(image, page, 12);
    if next == 0 {
        return None;
    }
    let first = Place {
        page: next,
        offset: 20,
    };
    Some(key_of(image, first))
}
