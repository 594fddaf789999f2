// A table created on an accepted image.
#![tactic(auto)]

ghost use Rattle.create.specs.Creates.{EnterReady, Entered, CreateReady, Created};

use draw::list::set_number;
use edit::apply::carry_out;
use edit::plan::make_plan;
use edit::shape::count_conts;
use search::path::descend;
use search::table::{METAINDEX, find_from};
use stage::change::{Change, NewEntry, find_spot, put_change};
use table::{new_table, write_table};

pub mod table;

// Enters the name in the span on `page` of the metaindex, to which the path is, by the change, and writes its table, where `free`
// pages are free. Answers how many are free after it; without room it is none, and nothing changes. The table's pages are drawn behind the
// metaindex's, and a new name leaves no page of its span over: they come from the free list, and are known before anything is written.
// Its parameters come from four places, and no two of them go on together.
fn enter(
    image: &mut [u8],
    scratch: &mut [u8],
    page: usize,
    free: usize,
    change: Change,
    name: &[u8],
    path: &[u16; 252],
) -> Option<usize>
    requires { EnterReady image.old scratch.old page free change name.now path.now }
    ensures { Entered image.old page free change name.now path.now result image.new }
{
    let base = image.len() / 1024;
    let plan = make_plan(image, METAINDEX.root, page, change, name.len() + 4, 3, base);
    let old = count_conts(image, page, plan.links.size);
    let available = old + free;
    let wanted = plan.wants.conts + plan.wants.span + plan.wants.tower;
    let total = wanted + 3;
    if available < total {
        return None;
    }
    let table = new_table(image, wanted - old);
    let mut value = [0u8; 4];
    set_number(&mut value, 0, table.root);
    let new = NewEntry {
        key: name,
        value: &value,
    };
    carry_out(image, scratch, plan, change, new, path);
    write_table(image, table);
    Some(available - total)
}

// Creates a table of this name, which is allowed and no table has; `free` pages are free. Answers how many are free after it; without
// room it is none, and nothing changes. The scratch is as long as the image.
pub fn create(image: &mut [u8], scratch: &mut [u8], free: usize, name: &[u8]) -> Option<usize>
    requires { CreateReady image.old scratch.old free name.now }
    ensures { Created image.old free name.now result image.new }
{
    let path = descend(image, METAINDEX, name, false);
    let page = find_from(image, METAINDEX, path.lowest(), name);
    let spot = find_spot(image, page, METAINDEX.sort, name);
    let change = put_change(spot);
    let pages = path.pages;
    enter(image, scratch, page, free, change, name, &pages)
}
