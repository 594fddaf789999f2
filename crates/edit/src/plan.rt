// A span rewritten, with all that is read before anything is written, and its spans written.
ghost use Rattle.edit.specs.Makes.{PlanReady, PlanFor};
ghost use Rattle.edit.specs.Plans.{StayReady, WroteStay, MovedReady, WroteMoved, SplitReady, WroteSplit, SpansReady, WroteSpans};

use crate::fields::{Links, SkipList, read_links, read_list};
use crate::shape::{Shape, Wants, shape_of, wanted};
use crate::span::{Header, Part, write_span};
use draw::list::number_at;
use pages::write::put;
use stage::change::Change;

// A span that is rewritten: its table's skip-list page, its own page, and what these say; how its entries are shared out and
// the pages wanted; how many more pages are drawn behind these. The buffer has the list of pages in its first `base` words, the
// span's own first; behind them, for each page of the list in turn, 1016 bytes of a stream.
#[derive(Clone, Copy)]
pub struct Plan {
    pub root: usize,
    pub page: usize,
    pub list: SkipList,
    pub links: Links,
    pub shape: Shape,
    pub wants: Wants,
    pub more: usize,
    pub base: usize,
}

// Reads all that a change of the span on `page` goes by. The new entry has `both` bytes of key and value. What is passed comes from the
// search, the entry, the image and the caller; the plan is where it comes together.
pub fn make_plan(
    image: &[u8],
    root: usize,
    page: usize,
    change: Change,
    both: usize,
    more: usize,
    base: usize,
) -> Plan
    requires { PlanReady image.now root page change both }
    ensures { PlanFor image.now root page change both more base result }
{
    let list = read_list(image, root);
    let links = read_links(image, page);
    let shape = shape_of(image, page, change, both, list, links.size);
    let wants = wanted(shape);
    Plan {
        root,
        page,
        list,
        links,
        shape,
        wants,
        more,
        base,
    }
}

// Writes the span, with the span on page `next` behind it.
fn write_stay(image: &mut [u8], buffer: &mut [u8], plan: Plan, next: usize)
    requires { StayReady image.old buffer.old plan }
    ensures { WroteStay image.old buffer.old plan next image.new buffer.new }
{
    let part = Part {
        at: 0,
        count: 1 + plan.wants.conts,
        word: plan.base,
        end: 4 * plan.base + plan.shape.stay,
        top: Header {
            prev: plan.links.prev,
            next,
            most: plan.list.most,
            size: plan.shape.half,
        },
    };
    write_span(image, buffer, part)
}

// Writes the new span behind it.
fn write_moved(image: &mut [u8], buffer: &mut [u8], plan: Plan)
    requires { MovedReady image.old buffer.old plan }
    ensures { WroteMoved image.old buffer.old plan image.new }
{
    let at = 1 + plan.wants.conts;
    let word = plan.base + 254 * at;
    let part = Part {
        at,
        count: plan.wants.span,
        word,
        end: 4 * word + plan.shape.moved,
        top: Header {
            prev: plan.page,
            next: plan.links.next,
            most: plan.list.most,
            size: plan.shape.entries - plan.shape.half,
        },
    };
    write_span(image, buffer, part)
}

// Writes the span and the new one, and the previous link of the span that follows.
fn write_split(image: &mut [u8], buffer: &mut [u8], plan: Plan)
    requires { SplitReady image.old buffer.old plan }
    ensures { WroteSplit image.old buffer.old plan image.new }
{
    let next = plan.links.next;
    let new = number_at(buffer, 1 + plan.wants.conts);
    write_stay(image, buffer, plan, new);
    write_moved(image, buffer, plan);
    if next != 0 {
        put::<u32>(image, next, 8, new)
    }
}

// Writes the spans: with a new one, or without.
pub fn write_spans(image: &mut [u8], buffer: &mut [u8], plan: Plan)
    requires { SpansReady image.old buffer.old plan }
    ensures { WroteSpans image.old buffer.old plan image.new }
{
    let next = plan.links.next;
    if plan.wants.span == 0 {
        write_stay(image, buffer, plan, next);
        return;
    }
    write_split(image, buffer, plan)
}
