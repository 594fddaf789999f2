// A table: its skip-list page, its spans, its towers.
ghost use Rattle.blockfile.specs.Bytes.{pg};
ghost use Rattle.blockfile.specs.Order.{Within};
ghost use Rattle.pages.specs.Places.{Inside};
ghost use Rattle.heads.specs.Claims.{Lent};
ghost use Rattle.walks.specs.Found.{Decides, FindsAt};
ghost use Rattle.verify.specs.Tables.{CountsAre, ColumnsFound, TableFound};

use heads::claim::claim;
use pages::mark::Kind;
use pages::read::get;
use search::table::TableRef;
use spans::span::Rules;
use spans::verify_spans;
use towers::verify_towers;

// What the spans and towers of a table count: keys, spans and towers.
#[derive(Clone, Copy)]
pub struct Tally {
    pub keys: usize,
    pub spans: usize,
    pub levels: usize,
}

// Claims and reads the spans and the towers of the table on `root`.
fn verify_columns(image: &[u8], scratch: &mut [u8], root: usize, rules: Rules) -> Option<Tally>
    requires { Lent image.now scratch.old × Inside image.now root 0 1024 × Within 2 128 rules.most }
    ensures { FindsAt Some (ColumnsFound rules.sort image.now scratch.old root rules.most) result scratch.new }
{
    let first = get::<u32>(image, root, 8);
    let counted = verify_spans(image, scratch, first, rules)?;
    let head = get::<u32>(image, root, 12);
    let levels = verify_towers(image, scratch, head, first)?;
    Some(Tally {
        keys: counted.keys,
        spans: counted.spans,
        levels,
    })
}

// Whether the skip-list page has these counts.
fn are_counts(image: &[u8], root: usize, tally: Tally) -> bool
    requires { Inside image.now root 0 1024 }
    ensures { Decides (CountsAre (pg image.now root) tally) result }
{
    let keys = get::<u32>(image, root, 16);
    let spans = get::<u32>(image, root, 20);
    let levels = get::<u32>(image, root, 24);
    keys == tally.keys && spans == tally.spans && levels == tally.levels
}

// Claims and reads the table; answers its number of keys.
pub fn verify_table(image: &[u8], scratch: &mut [u8], table: TableRef) -> Option<usize>
    requires { Lent image.now scratch.old }
    ensures { FindsAt Some (TableFound table.sort image.now scratch.old table.root) result scratch.new }
{
    let root = table.root;
    if !claim(scratch, root, Kind::SkipList) {
        return None;
    }
    let most = get::<u16>(image, root, 28);
    if most < 2 || 128 < most {
        return None;
    }
    let sort = table.sort;
    let rules = Rules { most, sort };
    let tally = verify_columns(image, scratch, root, rules)?;
    if !are_counts(image, root, tally) {
        return None;
    }
    Some(tally.keys)
}
