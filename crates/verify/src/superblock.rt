// The superblock, page 1.
ghost use Rattle.std.specs.Prelude.{◌≡◌, ◌*◌, length};
ghost use Rattle.blockfile.specs.Bytes.{pg, be32};
ghost use Rattle.blockfile.specs.Order.{Within};
ghost use Rattle.blockfile.specs.WellFormed.{KeptCount};
ghost use Rattle.pages.specs.Places.{Inside};
ghost use Rattle.heads.specs.Claims.{Lent};
ghost use Rattle.walks.specs.Found.{Decides, FindsAt};
ghost use Rattle.verify.specs.Superblock.{Fixed, SuperFound};

use heads::claim::claim;
use pages::mark::Kind;
use pages::read::get;

// Whether the version is 1.2, the file length that of the pages, and the page size 1024.
#[tactic(auto, using(crate::proofs::Supers::numbers_fixed))]
fn is_fixed(image: &[u8], pages: usize) -> bool
    requires { (length image.now ≡ 1024 * pages) × Within 1 4096 pages }
    ensures { Decides (Fixed pages (pg image.now 1)) result }
{
    let version = get::<u16>(image, 1, 6);
    let high = get::<u32>(image, 1, 8);
    let low = get::<u32>(image, 1, 12);
    let size = get::<u32>(image, 1, 24);
    version == 0x0102 && high == 0 && low == 1024 * pages && size == 1024
}

// Claims page 1 and reads the superblock; answers the first free-list page, 0 for none.
pub fn verify_superblock(image: &[u8], scratch: &mut [u8]) -> Option<usize>
    requires { Lent image.now scratch.old }
    ensures { FindsAt Some (SuperFound image.now scratch.old) result scratch.new }
{
    if !claim(scratch, 1, Kind::Superblock) {
        return None;
    }
    if !is_fixed(image, image.len() / 1024) {
        return None;
    }
    let mounted = get::<u16>(image, 1, 20);
    if 1 < mounted {
        return None;
    }
    let size = get::<u16>(image, 1, 22);
    if size < 2 || 128 < size {
        return None;
    }
    Some(get::<u32>(image, 1, 16))
}

// Whether the superblock's count of free pages is that of `free` pages, or not kept.
pub fn is_kept(image: &[u8], free: usize) -> bool
    requires { Inside image.now 1 28 4 }
    ensures { Decides (KeptCount free (be32 (pg image.now 1) 28)) result }
{
    let kept = get::<u32>(image, 1, 28);
    kept == 0 || kept - 1 == free
}
