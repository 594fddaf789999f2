// The way down the towers of a table to a key.
ghost use Rattle.std.specs.Prelude.{◌≤◌, ◌≡◌, length, get_or};
ghost use Rattle.search.specs.Tables.{ReadingBy};
ghost use Rattle.search.specs.Paths.{Filled, PathIn, Ahead, Refused, Judged};

use crate::span::{Bound, begins_past};
use crate::table::TableRef;
use pages::read::get;

// The tower passed at each level: the last one there whose span begins at the key or below it, the head if there is none. As many levels
// as the head has are in use, the others are 0.
// An array with its height beside it, since the store has no heap.
#[derive(Clone, Copy)]
pub struct Path {
    pub pages: [u16; 252],
    pub height: usize,
}

impl Path {
    // The tower passed at the lowest level; 0 where there are no levels.
    pub fn lowest(self) -> usize
        ensures { result ≡ get_or self.pages 0 0 }
    {
        self.pages[0] as usize
    }
}

// The first `height` levels become `page`.
fn fill(levels: &mut [u16; 252], height: usize, page: u16)
    requires { (height ≤ 252) × (length levels.old ≡ 252) }
    ensures { Filled levels.old height (λ _. page) levels.new }
{
    levels[..height].fill(page);
}

// Whether the way on a level ends before the tower on `next`: it is the one that was refused just before, on a level above, there is none,
// or its span begins past the bound.
fn refuses(image: &[u8], next: usize, refused: usize, bound: Bound, key: &[u8]) -> bool
    requires { Ahead image.now bound.sort next × Refused image.now bound key.now refused }
    ensures { Judged image.now bound key.now next result }
{
    next == refused || next == 0 || begins_past(image, get::<u32>(image, next, 12), bound, key)
}

// Goes down the towers of the table: on each level along the towers whose spans begin at the key or below it (strictly: below it), then a
// level down. Where the tower that is refused is the very next one, none is ahead on the levels below either. No more towers are passed
// than the table has spans.
pub fn descend(image: &[u8], table: TableRef, key: &[u8], strict: bool) -> Path
    requires { ReadingBy image.now table }
    ensures { PathIn image.now table key.now strict result }
{
    let root = table.root;
    let bound = Bound {
        sort: table.sort,
        strict,
    };
    let mut tower = get::<u32>(image, root, 12);
    let height = get::<u16>(image, tower, 10);
    let mut left = get::<u32>(image, root, 20);
    let mut pages = [0u16; 252];
    let mut level = height;
    let mut refused = 0;
    while level != 0 {
        let next = get::<u32>(image, tower, 12 + 4 * level);
        if refuses(image, next, refused, bound, key) {
            if get::<u32>(image, tower, 16) == next {
                fill(&mut pages, level, tower as u16);
                return Path { pages, height };
            }
            refused = next;
            level -= 1;
            pages[level] = tower as u16;
        } else {
            tower = next;
            left -= 1;
        }
    }
    Path { pages, height }
}
