// What every call does first: the refusals 1 to 3.
ghost use Rattle.std.specs.Prelude.{◌≡◌};
ghost use Rattle.blockfile.specs.Calls.{length_ok};
ghost use Rattle.refusals.specs.Open.{Opens};

use crate::legal::is_within;
use blockfile::{Counts, Refusal};
use pages::write::clear;
use verify::image::verify;

// Whether n is the length of an image: 4 to 4096 pages of 1024 bytes.
fn is_length(n: usize) -> bool
    ensures { result ≡ length_ok n }
{
    is_within(4, 4096, n / 1024) && n % 1024 == 0
}

// Verifies the image: refused with 1, 2 or 3, or what check counts. A refused call is at its end; on an accepted image the call goes on, with the scratch as its own up to the
// image's length, and clears it when it ends.
pub fn open(image: &[u8], scratch: &mut [u8]) -> Result<Counts, Refusal>
    ensures { Opens image.now scratch.old result scratch.new }
{
    if !is_length(image.len()) {
        return Err(Refusal::ImageLength);
    }
    if scratch.len() < image.len() {
        return Err(Refusal::ScratchLength);
    }
    // room for the heads of the pages
    let heads = 20 * (image.len() / 1024);
    let Some(counts) = verify(image, &mut scratch[..heads]) else {
        clear(scratch, image.len());
        return Err(Refusal::NotWellFormed);
    };
    Ok(counts)
}
