// The entries of a span after a change: how they are shared out over the span and, on a split, a new one.
ghost use Rattle.edit.specs.Shapes.{ContsReady, ContsCounted, ShapeReady, ShapeFor, Shaped, NewPages, WantsFor};

use crate::fields::SkipList;
use crate::height::tower_height;
use stage::change::{Change, size_after};
use stage::measure::measure;

// How many entries there are, and how many of them stay; where the streams of those that stay and of those that move end; the
// height of the new span's tower. Without a split all stay, and there is no tower.
#[derive(Clone, Copy)]
pub struct Shape {
    pub entries: usize,
    pub half: usize,
    pub stay: usize,
    pub moved: usize,
    pub height: usize,
}

// How many pages are wanted: continuation pages of the span, pages of a new span, and pages of a tower, 1 or 0.
// All three are counts, and are added: a flag for the tower would be turned into a number at each sum.
#[derive(Clone, Copy)]
pub struct Wants {
    pub conts: usize,
    pub span: usize,
    pub tower: usize,
}

// How many continuation pages the span on the page has, from where its `size` entries end.
pub fn count_conts(image: &[u8], page: usize, size: usize) -> usize
    requires { ContsReady image.now page size }
    ensures { ContsCounted image.now page result }
{
    let none = Change {
        index: size,
        drops: false,
        adds: false,
    };
    let ends = measure(image, page, none, 0, size);
    ends.stay.div_ceil(1016) - 1
}

// The shape of the span on the page after the change. It has `size` entries now; the new entry has `both` bytes of key and value.
pub fn shape_of(
    image: &[u8],
    page: usize,
    change: Change,
    both: usize,
    list: SkipList,
    size: usize,
) -> Shape
    requires { ShapeReady image.now page change both list size }
    ensures { ShapeFor image.now page change both list result }
{
    let entries = size_after(size, change);
    let (half, height) = if list.most < entries {
        (entries.div_ceil(2), tower_height(list.spans + 1, list.max))
    } else {
        (entries, 0)
    };
    let ends = measure(image, page, change, both, half);
    Shape {
        entries,
        half,
        stay: ends.stay,
        moved: ends.moved,
        height,
    }
}

// The pages of the new span, none without a split.
fn new_pages(shape: Shape) -> usize
    requires { Shaped shape }
    ensures { NewPages shape result }
{
    if shape.half < shape.entries {
        return shape.moved.div_ceil(1016);
    }
    0
}

// The pages that a shape wants.
pub fn wanted(shape: Shape) -> Wants
    requires { Shaped shape }
    ensures { WantsFor shape result }
{
    let conts = shape.stay.div_ceil(1016) - 1;
    let span = new_pages(shape);
    Wants {
        conts,
        span,
        tower: shape.height.min(1),
    }
}
