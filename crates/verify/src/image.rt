// The whole image.
ghost use Rattle.std.specs.Prelude.{◌≤◌, length};
ghost use Rattle.heads.specs.Claims.{Room, Headed};
ghost use Rattle.verify.specs.Image.{Judged};

use crate::free::verify_free;
use crate::names::verify_tables;
use crate::superblock::{is_kept, verify_superblock};
use crate::table::verify_table;
use blockfile::Counts;
use heads::claim::{all_claimed, copy_heads};
use search::table::METAINDEX;

// What check counts, if the image is well-formed. The scratch has the heads of its pages, none of them claimed.
fn judge(image: &[u8], scratch: &mut [u8]) -> Option<Counts>
    requires { Headed image.now scratch.old × (4096 ≤ length image.now) }
    ensures { Judged image.now result }
{
    let first = verify_superblock(image, scratch)?;
    let tables = verify_table(image, scratch, METAINDEX)?;
    let keys = verify_tables(image, scratch)?;
    let free = verify_free(image, scratch, first)?;
    if !all_claimed(scratch) {
        return None;
    }
    if !is_kept(image, free) {
        return None;
    }
    let pages = image.len() / 1024;
    Some(Counts {
        pages,
        tables,
        keys,
        free,
    })
}

// What check counts, if the image is well-formed. The scratch has room for the heads of its pages.
pub fn verify(image: &[u8], scratch: &mut [u8]) -> Option<Counts>
    requires { Room image.now scratch.old × (4096 ≤ length image.now) }
    ensures { Judged image.now result }
{
    copy_heads(image, scratch);
    judge(image, scratch)
}
