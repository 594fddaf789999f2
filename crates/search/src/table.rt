// Tables: the span where a key belongs, the value under a key, and a table by its name.
ghost use Rattle.std.specs.Prelude.{◌≡◌};
ghost use Rattle.blockfile.specs.WellFormed.{Accepted};
ghost use Rattle.pages.specs.Places.{Inside};
ghost use Rattle.search.specs.Tables.{ReadingBy, TargetIn, FoundIn, NamedAs};
ghost use Rattle.search.specs.Paths.{LowestIn, start_on};

use crate::path::descend;
use crate::span::{Bound, Extent, begins_past, find_entry};
use entries::copy::number;
use order::sort::Sort;
use pages::read::get;

// A table: its skip-list page, and how its keys sort. That an image has it (`ReadingBy`) is no invariant of this type, since put and remove
// change the image while they hold it.
#[derive(Clone, Copy)]
pub struct TableRef {
    pub root: usize,
    pub sort: Sort,
}

// The metaindex, whose keys are the names of the tables, which sort by bytes.
pub const METAINDEX: TableRef = TableRef {
    root: 2,
    sort: Sort::Bytes,
};

// The span of the lowest tower of a path; the first span for a path without levels, where `lowest` is 0.
fn start(image: &[u8], root: usize, lowest: usize) -> usize
    requires { Inside image.now root 8 4 × ((lowest ≡ 0 → ⊥) → Inside image.now lowest 12 4) }
    ensures { result ≡ start_on image.now root lowest }
{
    if lowest == 0 {
        return get::<u32>(image, root, 8);
    }
    get::<u32>(image, lowest, 12)
}

// The page of the span where the key belongs, by a path to the key: along the spans from that of its lowest tower, as long as the next one
// begins at the key or below it.
pub fn find_from(image: &[u8], table: TableRef, lowest: usize, key: &[u8]) -> usize
    requires { ReadingBy image.now table × LowestIn image.now table key.now lowest }
    ensures { TargetIn image.now table key.now result }
{
    let bound = Bound {
        sort: table.sort,
        strict: false,
    };
    let mut page = start(image, table.root, lowest);
    let mut next = get::<u32>(image, page, 12);
    while next != 0 {
        if begins_past(image, next, bound, key) {
            return page;
        }
        page = next;
        next = get::<u32>(image, page, 12);
    }
    page
}

// The same by the plain search, along all spans. The calls search by the towers; the program `searches` compares both.
pub fn find_span(image: &[u8], table: TableRef, key: &[u8]) -> usize
    requires { ReadingBy image.now table }
    ensures { TargetIn image.now table key.now result }
{
    find_from(image, table, 0, key)
}

// The same by the towers.
pub fn find_by_towers(image: &[u8], table: TableRef, key: &[u8]) -> usize
    requires { ReadingBy image.now table }
    ensures { TargetIn image.now table key.now result }
{
    let path = descend(image, table, key, false);
    find_from(image, table, path.lowest(), key)
}

// The value under the key in the table.
pub fn find(image: &[u8], table: TableRef, key: &[u8]) -> Option<Extent>
    requires { ReadingBy image.now table }
    ensures { FoundIn image.now table key.now result }
{
    let page = find_by_towers(image, table, key);
    find_entry(image, page, table.sort, key)
}

// The skip-list page of the table of this name, if there is one.
pub fn find_table(image: &[u8], name: &[u8]) -> Option<usize>
    requires { Accepted image.now }
    ensures { NamedAs image.now name.now result }
{
    let value = find(image, METAINDEX, name)?;
    Some(number(image, value.at))
}
