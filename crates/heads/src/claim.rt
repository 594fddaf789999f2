// Claims of pages, in the scratch: 20 bytes for each page, its head. The first 16 bytes of all heads stand one behind the other, and
// behind them the last four of all, so that a link's place is found by a shift. The head of a claimed page begins with 0.
ghost use Rattle.std.specs.Prelude.{List, ◌≡◌, ℕ, ◌*◌, ◌-◌, ◌≤◌, ◌<◌, length};
ghost use Rattle.pages.specs.Kinds.{kind_at};
ghost use Rattle.pages.specs.Places.{Number};
ghost use Rattle.heads.specs.Claims.{Room, HeadCopied, Headed, Lent, Claimed, InHead, full, pages_in, head_at};

use pages::mark::{Kind, bears};
use pages::word::Word;
use pages::write::copy_bytes;

// Copies the head of the page of this index, by way of an array of its own, so that all of it is read before any of it is written
// and the compiler takes it in two steps. A page that begins with 0 bears no mark; its head begins with 255, as no mark does
// either, and so is not taken for one of a claimed page.
fn copy_head(image: &[u8], scratch: &mut [u8], index: usize)
    requires { Room image.now scratch.old × (20 * index < length scratch.old) }
    ensures { HeadCopied image.now scratch.old index scratch.new }
{
    let pages = scratch.len() / 20;
    let start = 1024 * index;
    let end = start + 20;
    let mut head = [0u8; 20];
    copy_bytes(&mut head, 0, &image[start..end]);
    copy_bytes(scratch, 16 * index, &head[..16]);
    copy_bytes(scratch, 16 * pages + 4 * index, &head[16..20]);
    if scratch[16 * index] == 0 {
        scratch[16 * index] = 255;
    }
}

// Copies the heads of all pages; none of them is claimed then.
pub fn copy_heads(image: &[u8], scratch: &mut [u8])
    requires { Room image.now scratch.old }
    ensures { Headed image.now scratch.new }
{
    let pages = scratch.len() / 20;
    for index in 0..pages {
        copy_head(image, scratch, index);
    }
}

// Where the byte at an offset of a page's head stands.
fn place(scratch: &[u8], page: usize, offset: usize) -> usize
    requires { (length scratch.now ≤ 81920) × (1 ≤ page) × (page ≤ 4096) × (offset < 20) }
    ensures { result ≡ head_at (pages_in scratch.now) (page - 1) offset }
{
    if offset < 16 {
        return 16 * (page - 1) + offset;
    }
    16 * (scratch.len() / 20) + 4 * (page - 1) + (offset - 16)
}

// The number at an offset of a page's head.
pub fn from_head<W: Word>(scratch: &[u8], page: usize, offset: usize) -> usize
    requires { InHead scratch.now page offset W.width }
    ensures { Number (W.value scratch.now (head_at (pages_in scratch.now) (page - 1) offset)) W.bound result }
{
    W::read(scratch, place(scratch, page, offset))
}

// Claims the page as the kind: it must be one of the pages, not claimed yet, and bear the mark; else nothing changes.
pub fn claim(scratch: &mut [u8], page: usize, kind: Kind) -> bool
    ensures { (img : List ℕ) → Lent img scratch.old → Claimed img scratch.old page (kind_at kind) result scratch.new }
{
    if page == 0 || scratch.len() / 20 < page || !bears(scratch, 16 * (page - 1), kind) {
        return false;
    }
    scratch[16 * (page - 1)] = 0;
    true
}

// Whether every page is claimed.
pub fn all_claimed(scratch: &[u8]) -> bool
    ensures { result ≡ full scratch.now }
{
    for i in 0..scratch.len() / 20 {
        if scratch[16 * i] != 0 {
            return false;
        }
    }
    true
}
