// The tower of a span that goes.
ghost use Rattle.links.specs.Levels.{Precedes};
ghost use Rattle.remove.specs.Towers.{FoundTower};

use links::around::{get_entries, tower_of};
use pages::read::get;

// A span's tower: its page, if there is one, and its height, 0 for none; for each of its levels the next tower behind it.
// An array with a height beside it, since the store has no heap.
#[derive(Clone, Copy)]
pub struct OwnTower {
    pub page: Option<usize>,
    pub height: usize,
    pub after: [usize; 252],
}

// The tower of the span on `page`, where the path has the towers before the span.
pub fn find_tower(image: &[u8], path: &[u16; 252], page: usize) -> OwnTower
    requires { Precedes image.now page path.now }
    ensures { FoundTower image.now page path.now result }
{
    let Some(tower) = tower_of(image, path, page) else {
        return OwnTower {
            page: None,
            height: 0,
            after: [0; 252],
        };
    };
    let height = get::<u16>(image, tower, 10);
    let after = get_entries(image, tower, height);
    OwnTower {
        page: Some(tower),
        height,
        after,
    }
}
