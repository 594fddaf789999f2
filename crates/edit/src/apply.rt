// A plan carried out: its entries staged, its pages drawn, its spans, its tower and its counts written.
ghost use Rattle.std.specs.Prelude.{◌≡◌};
ghost use Rattle.edit.specs.Commits.{CommitReady, Committed, CommitOn, CommittedOn};
ghost use Rattle.edit.specs.Applies.{DrawReady, DrewPlan, FlatReady, WroteFlat, TallReady, WroteTall};
ghost use Rattle.edit.specs.Rewrites.{CarryReady, Carried, CarryOn, CarriedOn};

use crate::counts::write_counts;
use crate::plan::{Plan, write_spans};
use crate::staging::stage_parts;
use crate::tower::{NewTower, write_tower};
use draw::draw::draw_pages;
use draw::list::{number_at, set_number};
use links::around::{towers_after, towers_before};
use stage::change::{Change, NewEntry};

// Draws the pages that the plan wants, and the further ones: the list in the buffer is then the span's own page and these. Answers
// how many pages of the span were left over and given back.
fn draw_plan(image: &mut [u8], buffer: &mut [u8], plan: Plan) -> usize
    requires { DrawReady image.old buffer.old plan }
    ensures { DrewPlan image.old buffer.old plan result image.new buffer.new }
{
    let total = plan.wants.conts + plan.wants.span + plan.wants.tower + plan.more;
    set_number(buffer, 0, plan.page);
    draw_pages(image, plan.links.first, total, buffer, 1)
}

// Writes a plan without a tower.
fn write_flat(image: &mut [u8], buffer: &mut [u8], plan: Plan)
    requires { FlatReady image.old buffer.old plan }
    ensures { WroteFlat image.old buffer.old plan image.new }
{
    write_spans(image, buffer, plan);
    write_counts(image, plan)
}

// Writes a plan with a tower, where the towers around it are those in `before` and `after`.
fn write_tall(
    image: &mut [u8],
    buffer: &mut [u8],
    plan: Plan,
    before: &[usize; 252],
    after: &[usize; 252],
)
    requires { TallReady image.old buffer.old plan before.now }
    ensures { WroteTall image.old buffer.old plan before.now after.now image.new }
{
    let at = 1 + plan.wants.conts;
    let span = number_at(buffer, at);
    let page = number_at(buffer, at + plan.wants.span);
    let new = NewTower {
        page,
        span,
        height: plan.shape.height,
        max: plan.list.max,
        head: plan.list.head,
        top: plan.list.top,
    };
    write_spans(image, buffer, plan);
    write_tower(image, new, before, after);
    write_counts(image, plan)
}

// Carries out a plan without a tower. Answers how many pages of the span were given back.
fn commit_flat(image: &mut [u8], buffer: &mut [u8], plan: Plan) -> usize
    requires { CommitReady image.old buffer.old plan × (plan.wants.tower ≡ 0) }
    ensures { Committed image.old buffer.old plan result image.new }
{
    let given = draw_plan(image, buffer, plan);
    write_flat(image, buffer, plan);
    given
}

// Carries out a plan with a tower. The towers around it are read before anything is written: those before it by the path to the span.
fn commit_tall(image: &mut [u8], buffer: &mut [u8], plan: Plan, path: &[u16; 252])
    requires { CommitOn image.old buffer.old plan path.now × (plan.wants.tower ≡ 0 → ⊥) }
    ensures { CommittedOn image.old buffer.old plan path.now image.new }
{
    let before = towers_before(path, plan.list.head);
    let after = towers_after(image, plan.root, &before);
    draw_plan(image, buffer, plan);
    write_tall(image, buffer, plan, &before, &after)
}

// Carries out a plan without a tower for which there is room: its span gets its entries after the change. Answers how many pages of
// the span were given back.
pub fn carry_flat(
    image: &mut [u8],
    buffer: &mut [u8],
    plan: Plan,
    change: Change,
    new: NewEntry<'_>,
) -> usize
    requires { CarryReady image.old buffer.old plan change new.key.now new.value.now × (plan.wants.tower ≡ 0) }
    ensures { Carried image.old plan change new.entry.key.now new.entry.value.now result image.new }
{
    stage_parts(image, buffer, plan, change, new);
    commit_flat(image, buffer, plan)
}

// Carries out any plan for which there is room, with the path to its span.
pub fn carry_out(
    image: &mut [u8],
    buffer: &mut [u8],
    plan: Plan,
    change: Change,
    new: NewEntry<'_>,
    path: &[u16; 252],
)
    requires { CarryOn image.old buffer.old plan change new.key.now new.value.now path.now }
    ensures { CarriedOn image.old plan change new.entry.key.now new.entry.value.now path.now image.new }
{
    stage_parts(image, buffer, plan, change, new);
    if plan.wants.tower == 0 {
        commit_flat(image, buffer, plan);
        return;
    }
    commit_tall(image, buffer, plan, path)
}
