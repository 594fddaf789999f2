// Entries measured: where they end in the stream of a span.
ghost use Rattle.std.specs.Prelude.{◌≡◌, ◌+◌, ◌≤◌, ◌<◌};
ghost use Rattle.blockfile.specs.Layout.{lens_start};
ghost use Rattle.stage.specs.Changes.{Going};
ghost use Rattle.stage.specs.Parts.{far, EntryMeasured, PartMeasured, Measurable, MeasuredOn};

use crate::change::{Change, Cursor, Next, next_entry, size_after, start};
use pages::read::get;

// Where a part of the new list ends in a stream of its own, and the cursor behind it.
#[derive(Clone, Copy)]
pub struct Part {
    pub end: usize,
    pub after: Cursor,
}

// Where the entries that stay end, and those that move to a new span.
#[derive(Clone, Copy)]
pub struct Ends {
    pub stay: usize,
    pub moved: usize,
}

// Where an entry's lengths lie if the one before it ends at position v.
pub fn lens_at(v: usize) -> usize
    requires { lens_start v < 18446744073709551616 }
    ensures { (result ≡ lens_start v) × (v ≤ result) × (result ≤ v + 3) }
{
    let offset = v % 1016;
    if 1012 < offset {
        v + (1016 - offset)
    } else {
        v
    }
}

// The entry at the cursor, of which the one that comes has `both` bytes of key and value; the one before it ends at `end`.
fn measure_entry(image: &[u8], cursor: Cursor, change: Change, both: usize, end: usize) -> Part
    requires { Going image.now change cursor 1 × (both ≤ 131070) × (end < far) }
    ensures { EntryMeasured image.now change cursor both end result }
{
    let lens = lens_at(end);
    let next = next_entry(image, cursor, change);
    match next {
        Next::New(after) => Part {
            end: lens + 4 + both,
            after,
        },
        Next::Old(g, after) => Part {
            end: lens + 4 + (g.key + g.value),
            after,
        },
    }
}

// So many entries from the cursor on, in a stream of their own.
fn measure_part(image: &[u8], from: Cursor, change: Change, both: usize, count: usize) -> Part
    requires { Going image.now change from count × (both ≤ 131070) }
    ensures { PartMeasured image.now change from both count result }
{
    let mut cursor = from;
    let mut end = 12;
    for _i in 0..count {
        let part = measure_entry(image, cursor, change, both, end);
        end = part.end;
        cursor = part.after;
    }
    Part { end, after: cursor }
}

// The span on the page after the change, in two parts: the first `half` entries, and the others.
pub fn measure(image: &[u8], page: usize, change: Change, both: usize, half: usize) -> Ends
    requires { Measurable image.now page change half × (both ≤ 131070) }
    ensures { MeasuredOn image.now page change both half result }
{
    let size = get::<u16>(image, page, 18);
    let stay = measure_part(image, start(page), change, both, half);
    let middle = stay.after;
    let rest = size_after(size, change) - half;
    let moved = measure_part(image, middle, change, both, rest);
    Ends {
        stay: stay.end,
        moved: moved.end,
    }
}
