// A key's value put into a table.
ghost use Rattle.edit.specs.Puts.{PutReady, PutDone};

use crate::apply::carry_out;
use crate::plan::make_plan;
use crate::shape::count_conts;
use search::path::descend;
use search::table::{TableRef, find_from};
use stage::change::{NewEntry, find_spot, put_change};

// Puts the value under the key in the table; `free` pages are free. Answers how many are free after it; without room it is none,
// and nothing changes. The scratch is as long as the image.
pub fn put(
    image: &mut [u8],
    scratch: &mut [u8],
    table: TableRef,
    free: usize,
    key: &[u8],
    value: &[u8],
) -> Option<usize>
    requires { PutReady image.old scratch.old table free key.now value.now }
    ensures { PutDone image.old table free key.now value.now result image.new }
{
    let path = descend(image, table, key, false);
    let page = find_from(image, table, path.lowest(), key);
    let sort = table.sort;
    let spot = find_spot(image, page, sort, key);
    let change = put_change(spot);
    let base = image.len() / 1024;
    let plan = make_plan(
        image,
        table.root,
        page,
        change,
        key.len() + value.len(),
        0,
        base,
    );
    let old = count_conts(image, page, plan.links.size);
    let available = old + free;
    let wanted = plan.wants.conts + plan.wants.span + plan.wants.tower;
    if available < wanted {
        return None;
    }
    let pages = path.pages;
    let new = NewEntry { key, value };
    carry_out(image, scratch, plan, change, new, &pages);
    Some(available - wanted)
}
