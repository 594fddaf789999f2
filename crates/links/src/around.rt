// The towers around a place of a table: for each level the last tower before it, and the next one from there on.
ghost use Rattle.std.specs.Prelude.{◌+◌, ◌*◌, ◌≤◌, ◌≡◌, get_or, replicate};
ghost use Rattle.blockfile.specs.Bytes.{pg, be32};
ghost use Rattle.pages.specs.Places.{Inside};
ghost use Rattle.search.specs.Paths.{Filled};
ghost use Rattle.links.specs.Levels.{Pages, page_or_head, HasBefore, AfterIn, Precedes, TowerOn};

use pages::read::get;

// The page of a path, or the head where it has none. A path has 0 for none, as the entries have on the image that it is read from.
fn or_head(head: usize, page: usize) -> usize
    ensures { result ≡ page_or_head head page }
{
    if page == 0 { head } else { page }
}

// For each level the tower of the path; the head from the path's height on, where it has 0.
pub fn towers_before(path: &[u16; 252], head: usize) -> [usize; 252]
    requires { Pages path.now }
    ensures { Filled (replicate 252 0) 252 (λ l. page_or_head head (get_or path.now l 0)) result }
{
    let mut before = [0usize; 252];
    for i in 0..252 {
        before[i] = or_head(head, path[i] as usize);
    }
    before
}

// For each level the page of the next tower after the one in `before`; 0 for none, and above the head: no tower is higher than it.
pub fn towers_after(image: &[u8], root: usize, before: &[usize; 252]) -> [usize; 252]
    requires { HasBefore image.now root before.now }
    ensures { AfterIn image.now root before.now result }
{
    let height = get::<u16>(image, get::<u32>(image, root, 12), 10);
    let mut after = [0usize; 252];
    for i in 0..height {
        after[i] = get::<u32>(image, before[i], 16 + 4 * i);
    }
    after
}

// The page of the tower of the span on `page`, if it has one, where the path has the last towers before that span: the next tower is
// the span's if it names the span. A path without levels is that of a table with no tower but the head.
pub fn tower_of(image: &[u8], path: &[u16; 252], page: usize) -> Option<usize>
    requires { Precedes image.now page path.now }
    ensures { TowerOn image.now page path.now result }
{
    let lowest = path[0] as usize;
    if lowest == 0 {
        return None;
    }
    let next = get::<u32>(image, lowest, 16);
    if next == 0 {
        return None;
    }
    if get::<u32>(image, next, 12) != page {
        return None;
    }
    Some(next)
}

// The first `height` entries of the tower on the page, and 0 above them.
pub fn get_entries(image: &[u8], page: usize, height: usize) -> [usize; 252]
    requires { Inside image.now page 0 1024 × (height ≤ 252) }
    ensures { Filled (replicate 252 0) height (λ l. be32 (pg image.now page) (16 + 4 * l)) result }
{
    let mut nexts = [0usize; 252];
    for i in 0..height {
        nexts[i] = get::<u32>(image, page, 16 + 4 * i);
    }
    nexts
}
