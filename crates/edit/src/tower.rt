// A new tower written and linked.
ghost use Rattle.std.specs.Prelude.{◌≡◌, [], ◌∷◌};
ghost use Rattle.blockfile.specs.Bytes.{apply};
ghost use Rattle.links.specs.Links.{Linkable};
ghost use Rattle.edit.specs.Cuts.{links_on, tower_writes};
ghost use Rattle.edit.specs.Towers.{rise_of, TowerReady};

use links::write::{link_levels, put_tower};
use pages::write::put;

// A new tower: its page and its span's; its height, and its max height, which is the head's; the head's page and current height.
#[derive(Clone, Copy)]
pub struct NewTower {
    pub page: usize,
    pub span: usize,
    pub height: usize,
    pub max: usize,
    pub head: usize,
    pub top: usize,
}

// The tower on `page` is now the next one after those in `before`, at each level below `height`.
fn link_tower(image: &mut [u8], before: &[usize; 252], height: usize, page: usize)
    requires { Linkable image.old before.now height }
    ensures { image.new ≡ apply (links_on before.now page height) image.old }
{
    let values = [page; 252];
    link_levels(image, before, &values, height)
}

// Writes the tower whole, with the towers `after` as its entries, links those in `before` to it, and raises the head.
pub fn write_tower(image: &mut [u8], new: NewTower, before: &[usize; 252], after: &[usize; 252])
    requires { TowerReady image.old new before.now }
    ensures { image.new ≡ apply (tower_writes (rise_of new before.now after.now) (new.page ∷ [])) image.old }
{
    put_tower(image, new.page, new.max, new.span, &after[..new.height]);
    link_tower(image, before, new.height, new.page);
    if new.top < new.height {
        put::<u16>(image, new.head, 10, new.height)
    }
}
