// The free list: its blocks and the pages they list.
ghost use Rattle.std.specs.Prelude.{◌+◌, ◌*◌, true};
ghost use Rattle.pages.specs.Places.{Inside};
ghost use Rattle.heads.specs.Claims.{Lent};
ghost use Rattle.walks.specs.Found.{FindsAt};
ghost use Rattle.verify.specs.Free.{ListedFound, BlockFound, FreeFound};

use heads::claim::{claim, from_head};
use pages::mark::Kind;
use pages::read::get;

// Claims the pages that the block on `page` lists, `count` of them.
fn claim_listed(image: &[u8], scratch: &mut [u8], page: usize, count: usize) -> bool
    requires { Lent image.now scratch.old × Inside image.now page 16 (4 * count) }
    ensures { FindsAt {A = Unit {0}} (λ u. true) (λ u. ListedFound image.now scratch.old page 16 count) result scratch.new }
{
    for i in 0..count {
        let listed = get::<u32>(image, page, 16 + 4 * i);
        if !claim(scratch, listed, Kind::Free) {
            return false;
        }
    }
    true
}

// Claims the block on `page` and the pages it lists; answers how many these are.
fn claim_block(image: &[u8], scratch: &mut [u8], page: usize) -> Option<usize>
    requires { Lent image.now scratch.old }
    ensures { FindsAt Some (BlockFound image.now scratch.old page) result scratch.new }
{
    if !claim(scratch, page, Kind::Block) {
        return None;
    }
    let count = from_head::<u32>(scratch, page, 12);
    if 252 < count {
        return None;
    }
    if !claim_listed(image, scratch, page, count) {
        return None;
    }
    Some(1 + count)
}

// Claims the blocks from the one on `start` on, with the pages they list; answers F, how many these are.
pub fn verify_free(image: &[u8], scratch: &mut [u8], start: usize) -> Option<usize>
    requires { Lent image.now scratch.old }
    ensures { FindsAt Some (FreeFound image.now scratch.old start 0) result scratch.new }
{
    let mut page = start;
    let mut free = 0;
    while page != 0 {
        let n = claim_block(image, scratch, page)?;
        free += n;
        page = from_head::<u32>(scratch, page, 8);
    }
    Some(free)
}
