// A key removed from a table.
ghost use Rattle.remove.specs.Leaves.{LeaveReady, SpanLeft};
ghost use Rattle.remove.specs.Removes.{Goes, RemoveReady, RemoveDone};

use crate::unlink::unlink;
use edit::apply::carry_flat;
use edit::fields::{Links, read_links};
use edit::plan::make_plan;
use search::path::descend;
use search::table::{TableRef, find_from};
use stage::change::{Change, NewEntry, find_spot};

// Whether a span goes with an entry of it: it is not the first, and it has no other.
fn goes(links: Links) -> bool
    ensures { Goes links result }
{
    links.prev != 0 && links.size == 1
}

// Takes the entry at the index out of the span on `page` of the table with the skip-list page `root`. The others never reach further
// than all did, so they want no pages but the span's own. Answers how many of these were given back. The scratch is as long as the image.
fn leave(image: &mut [u8], scratch: &mut [u8], root: usize, page: usize, index: usize) -> usize
    requires { LeaveReady image.old scratch.old root page index }
    ensures { SpanLeft image.old root page index result image.new }
{
    let change = Change {
        index,
        drops: true,
        adds: false,
    };
    let none = NewEntry {
        key: &[],
        value: &[],
    };
    let base = image.len() / 1024;
    let plan = make_plan(image, root, page, change, 0, 0, base);
    carry_flat(image, scratch, plan, change, none)
}

// Removes the key from the table; `free` pages are free. Answers how many are free after it; if the key is not there it is none, and
// nothing changes. The scratch is as long as the image. The path is strictly below the key: a span that goes has that key alone, so
// the path has the towers before it, and the span where the key belongs is found from any tower before.
pub fn remove(
    image: &mut [u8],
    scratch: &mut [u8],
    table: TableRef,
    free: usize,
    key: &[u8],
) -> Option<usize>
    requires { RemoveReady image.old scratch.old table free key.now }
    ensures { RemoveDone image.old table free key.now result image.new }
{
    let path = descend(image, table, key, true);
    let page = find_from(image, table, path.lowest(), key);
    let sort = table.sort;
    let Ok(index) = find_spot(image, page, sort, key) else {
        return None;
    };
    let links = read_links(image, page);
    if goes(links) {
        let pages = path.pages;
        let left = free + unlink(image, table.root, page, links, &pages);
        return Some(left);
    }
    let left = free + leave(image, scratch, table.root, page, index);
    Some(left)
}
