// Towers and skip lists written: single entries, counts, and whole pages.
ghost use Rattle.std.specs.Prelude.{◌≤◌, ◌≡◌, ◌++◌, length};
ghost use Rattle.blockfile.specs.Bytes.{word32, write, apply, gather};
ghost use Rattle.blockfile.specs.Encode.{whole_tower, whole_skip_list};
ghost use Rattle.pages.specs.Places.{Inside};
ghost use Rattle.links.specs.Links.{link_writes, Linkable, tower_as, skip_list_as};

use pages::mark::Kind;
use pages::write::{put, put_mark, put_zeros};

// At each level below `height`, the entry of the tower on the page in `before` becomes the number in `values`.
// The level is the place of the entry too, so an index is plainer than a zip of the two lists with a count.
pub fn link_levels(image: &mut [u8], before: &[usize; 252], values: &[usize; 252], height: usize)
    requires { Linkable image.old before.now height }
    ensures { image.new ≡ apply (link_writes before.now values.now height) image.old }
{
    for level in 0..height {
        put::<u32>(image, before[level], 16 + 4 * level, values[level]);
    }
}

// The numbers as the entries on a tower's page.
fn put_entries(image: &mut [u8], page: usize, nexts: &[usize])
    requires { Inside image.old page 0 1024 × (length nexts.now ≤ 252) }
    ensures { image.new ≡ write image.old page 16 (gather word32 nexts.now) }
{
    for (i, &next) in nexts.iter().enumerate() {
        put::<u32>(image, page, 16 + 4 * i, next);
    }
}

// A tower's page written whole, with these entries: as many as the tower is high.
pub fn put_tower(image: &mut [u8], page: usize, max: usize, span: usize, nexts: &[usize])
    requires { Inside image.old page 0 1024 × (length nexts.now ≤ 252) }
    ensures { image.new ≡ apply (whole_tower (tower_as page max (length nexts.now) span nexts.now)) image.old }
{
    let height = nexts.len();
    put_mark(image, page, Kind::Tower);
    put::<u16>(image, page, 8, max);
    put::<u16>(image, page, 10, height);
    put::<u32>(image, page, 12, span);
    put_entries(image, page, nexts);
    put_zeros(image, page, 16 + 4 * height, 1008 - 4 * height)
}

// A table's numbers of keys, spans and towers.
#[derive(Clone, Copy)]
pub struct Counts {
    pub size: usize,
    pub spans: usize,
    pub levels: usize,
}

// The counts of a table, on its skip-list page.
pub fn put_counts(image: &mut [u8], root: usize, counts: Counts)
    requires { Inside image.old root 16 12 }
    ensures { image.new ≡ write image.old root 16 (word32 counts.size ++ (word32 counts.spans ++ word32 counts.levels)) }
{
    put::<u32>(image, root, 16, counts.size);
    put::<u32>(image, root, 20, counts.spans);
    put::<u32>(image, root, 24, counts.levels)
}

// A skip list to be written: its page, the pages of its first span and its head, its counts and its span size.
#[derive(Clone, Copy)]
pub struct NewSkipList {
    pub page: usize,
    pub first: usize,
    pub head: usize,
    pub counts: Counts,
    pub span_size: usize,
}

// A skip-list page written whole.
pub fn put_skip_list(image: &mut [u8], list: NewSkipList)
    requires { Inside image.old list.page 0 1024 }
    ensures { image.new ≡ apply (whole_skip_list (skip_list_as list)) image.old }
{
    let page = list.page;
    put_mark(image, page, Kind::SkipList);
    put::<u32>(image, page, 8, list.first);
    put::<u32>(image, page, 12, list.head);
    put_counts(image, page, list.counts);
    put::<u16>(image, page, 28, list.span_size);
    put_zeros(image, page, 30, 994)
}
