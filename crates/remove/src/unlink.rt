// A span, not the first of its table, unlinked with its tower and given back.
ghost use Rattle.std.specs.Prelude.{◌≡◌};
ghost use Rattle.blockfile.specs.Bytes.{apply};
ghost use Rattle.remove.specs.Unlinks.{SpansReady, around_writes, CountsReady, lowered, GoingReady, LetGo, UnlinkReady, Unlinked};

use crate::gone::give_gone;
use crate::tower::{OwnTower, find_tower};
use edit::fields::{Links, SkipList, read_list};
use links::around::towers_before;
use links::write::{Counts, link_levels, put_counts};
use pages::write::put;

// A span that goes, with all that is read before anything is written: its table's skip-list page, its own page, and what these say.
#[derive(Clone, Copy)]
pub struct Going {
    pub root: usize,
    pub page: usize,
    pub list: SkipList,
    pub links: Links,
}

// The spans on `prev` and on `next`, 0 for none, are now linked to each other.
fn link_spans(image: &mut [u8], prev: usize, next: usize)
    requires { SpansReady image.old prev next }
    ensures { image.new ≡ apply (around_writes prev next) image.old }
{
    put::<u32>(image, prev, 12, next);
    if next != 0 {
        put::<u32>(image, next, 8, prev)
    }
}

// Writes the counts of the table without the span and its tower, if it has one.
fn lower_counts(image: &mut [u8], going: Going, tower: Option<usize>)
    requires { CountsReady image.old going tower }
    ensures { image.new ≡ apply (lowered going tower) image.old }
{
    let counts = Counts {
        size: going.list.size - going.links.size,
        spans: going.list.spans - 1,
        levels: going.list.levels - usize::from(tower.is_some()),
    };
    put_counts(image, going.root, counts)
}

// Gives the pages back and writes the links around them. Answers how many pages.
fn let_go(image: &mut [u8], going: Going, tower: OwnTower, path: &[u16; 252]) -> usize
    requires { GoingReady image.old going tower path.now }
    ensures { LetGo image.old going tower path.now result image.new }
{
    let before = towers_before(path, going.list.head);
    let after = tower.after;
    let given = give_gone(image, going.links.first, going.page, tower.page);
    link_spans(image, going.links.prev, going.links.next);
    link_levels(image, &before, &after, tower.height);
    lower_counts(image, going, tower.page);
    given
}

// Unlinks the span on `page` of the table with the skip-list page `root`, and gives it back; `links` is what its page says, and the path
// has the towers before it. Answers how many pages were given back.
pub fn unlink(image: &mut [u8], root: usize, page: usize, links: Links, path: &[u16; 252]) -> usize
    requires { UnlinkReady image.old root page links path.now }
    ensures { Unlinked image.old root page links path.now result image.new }
{
    let list = read_list(image, root);
    let tower = find_tower(image, path, page);
    let going = Going {
        root,
        page,
        list,
        links,
    };
    let_go(image, going, tower, path)
}
