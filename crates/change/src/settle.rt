// How a call ends whose change was tried.
ghost use Rattle.change.specs.Change.{Settleable, Settled};

use blockfile::Refusal;
use pages::free::keep_count;

// Keeps the count of the pages that a change left free; refuses with `why` where nothing was changed.
pub fn settle(image: &mut [u8], left: Option<usize>, why: Refusal) -> Result<(), Refusal>
    requires { Settleable image.old left }
    ensures { Settled image.old left why result image.new }
{
    let Some(free) = left else {
        return Err(why);
    };
    keep_count(image, free);
    Ok(())
}
