// The tables that the metaindex names.
ghost use Rattle.std.specs.Prelude.{List, ◌+◌, ◌*◌, ◌≤◌};
ghost use Rattle.blockfile.specs.Layout.{Entry, Table, entries_of};
ghost use Rattle.heads.specs.Claims.{Lent};
ghost use Rattle.walks.specs.Found.{unclaimed, FindsAt};
ghost use Rattle.entries.specs.Keys.{Key};
ghost use Rattle.verify.specs.Tables.{NameAt, NamesOn, MetaOn, TablesFound};

use crate::table::verify_table;
use entries::copy::number;
use entries::key::printable;
use entries::place::{Place, lengths};
use entries::sorted::sort_at;
use pages::read::get;
use reader::place_after;
use search::table::{METAINDEX, TableRef};

// Whether a key of the metaindex is a name with a four-byte value.
#[tactic(auto, using(crate::proofs::Named::name_not, crate::proofs::Named::name_printed))]
fn is_named(image: &[u8], at: Place, key: usize, value: usize) -> bool
    requires { Key image.now at key × (1 ≤ key) × (key ≤ 65535) }
    ensures { NameAt image.now at key value result }
{
    value == 4 && key <= 255 && printable(image, at, key)
}

// Claims and reads the tables that the entries of the metaindex's span on `page` name. With `before` keys in the tables
// before them, answers how many keys there are. A name is tested when its table is come to, so that names that share a table
// are not read beyond the second.
fn verify_named(image: &[u8], scratch: &mut [u8], page: usize, before: usize) -> Option<usize>
    requires { Lent image.now scratch.old × ((es : List Entry) × NamesOn image.now page es) × (before + 128 * unclaimed scratch.old ≤ 524288) }
    ensures { (es : List Entry) → NamesOn image.now page es → FindsAt Some (TablesFound image.now scratch.old es before) result scratch.new }
{
    let mut at = Place { page, offset: 20 };
    let size = get::<u16>(image, page, 18);
    let mut keys = before;
    for _ in 0..size {
        let g = lengths(image, at);
        let first = g.after;
        if !is_named(image, first, g.key, g.value) {
            return None;
        }
        let value = place_after(image, first, g.key);
        let root = number(image, value);
        let sort = sort_at(image, first, g.key);
        let n = verify_table(image, scratch, TableRef { root, sort })?;
        keys += n;
        at = place_after(image, first, g.key + g.value);
    }
    Some(keys)
}

// Claims and reads the tables that the metaindex names; answers how many keys they have.
pub fn verify_tables(image: &[u8], scratch: &mut [u8]) -> Option<usize>
    requires { Lent image.now scratch.old × ((meta : Table) × MetaOn image.now meta) }
    ensures { (meta : Table) → MetaOn image.now meta → FindsAt Some (TablesFound image.now scratch.old (entries_of meta) 0) result scratch.new }
{
    let mut page = get::<u32>(image, METAINDEX.root, 8);
    let spans = get::<u32>(image, METAINDEX.root, 20);
    let mut keys = 0;
    for _ in 0..spans {
        keys = verify_named(image, scratch, page, keys)?;
        page = get::<u32>(image, page, 12);
    }
    Some(keys)
}
