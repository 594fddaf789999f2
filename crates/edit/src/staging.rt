// The entries of a plan staged in the buffer, before any page changes.
ghost use Rattle.edit.specs.Stages.{StayStage, StayStaged, MovedStage, MovedStaged, PartsReady, PartsStaged};

use crate::plan::Plan;
use stage::change::{Change, Cursor, NewEntry, start};
use stage::encode::stage;

// The entries that stay. Answers the cursor behind them.
fn stage_stay(
    image: &[u8],
    buffer: &mut [u8],
    plan: Plan,
    change: Change,
    new: NewEntry<'_>,
) -> Cursor
    requires { StayStage image.now buffer.old plan change new.key.now new.value.now }
    ensures { StayStaged image.now buffer.old plan change new.entry.key.now new.entry.value.now result buffer.new }
{
    let from = 4 * plan.base;
    let end = from + plan.shape.stay;
    stage(
        image,
        start(plan.page),
        change,
        new,
        plan.shape.half,
        &mut buffer[from..end],
    )
}

// The entries that move, from the cursor on.
fn stage_moved(
    image: &[u8],
    buffer: &mut [u8],
    plan: Plan,
    change: Change,
    new: NewEntry<'_>,
    cursor: Cursor,
)
    requires { MovedStage image.now buffer.old plan change new.key.now new.value.now cursor }
    ensures { MovedStaged image.now buffer.old plan change new.entry.key.now new.entry.value.now cursor buffer.new }
{
    let from = 4 * (plan.base + 254 * (1 + plan.wants.conts));
    let end = from + plan.shape.moved;
    let count = plan.shape.entries - plan.shape.half;
    stage(image, cursor, change, new, count, &mut buffer[from..end]);
}

// The entries of the plan, in the streams of its spans.
pub fn stage_parts(image: &[u8], buffer: &mut [u8], plan: Plan, change: Change, new: NewEntry<'_>)
    requires { PartsReady image.now buffer.old plan change new.key.now new.value.now }
    ensures { PartsStaged image.now plan change new.entry.key.now new.entry.value.now buffer.new }
{
    let cursor = stage_stay(image, buffer, plan, change, new);
    if plan.wants.span == 0 {
        return;
    }
    stage_moved(image, buffer, plan, change, new, cursor)
}
