// Entries encoded in a buffer, as the stream of a span: 12 bytes for its header, then the entries.
ghost use Rattle.std.specs.Prelude.{◌+◌, ◌≤◌, length};
ghost use Rattle.blockfile.specs.Layout.{lens_start, entry_end};
ghost use Rattle.stage.specs.Parts.{Lengthened, EntryPut, Copyable, OldPut, EntryStageable, EntryStaged, Stageable, Staged};

use crate::change::{Change, Cursor, NewEntry, Next, next_entry};
use crate::measure::{Part, lens_at};
use entries::place::Sizes;
use pages::word::Word;
use pages::write::copy_bytes;
use reader::copy_from;

// The lengths of an entry, and zeros before them where they do not begin at `end`. Answers where its key begins.
fn put_lengths(stream: &mut [u8], end: usize, key: usize, value: usize) -> usize
    requires { lens_start end + 4 ≤ length stream.old }
    ensures { Lengthened stream.old end key value stream.new result }
{
    let lens = lens_at(end);
    let zeros = [0; 3];
    let gap = lens - end;
    copy_bytes(stream, end, &zeros[..gap]);
    u16::store(stream, lens, key);
    u16::store(stream, lens + 2, value);
    lens + 4
}

// The entry that comes. Answers where it ends.
fn put_new(stream: &mut [u8], end: usize, new: NewEntry<'_>) -> usize
    requires { entry_end end (record { key = new.key.now; value = new.value.now }) ≤ length stream.old }
    ensures { EntryPut stream.old end (record { key = new.entry.key.now; value = new.entry.value.now }) stream.new result }
{
    let first = put_lengths(stream, end, new.key.len(), new.value.len());
    copy_bytes(stream, first, new.key);
    let second = first + new.key.len();
    copy_bytes(stream, second, new.value);
    second + new.value.len()
}

// An entry of the image; its key and value are one run of bytes. Answers where it ends.
fn put_old(image: &[u8], g: Sizes, stream: &mut [u8], end: usize) -> usize
    requires { Copyable image.now g stream.old end }
    ensures { OldPut image.now g stream.old end stream.new result }
{
    let first = put_lengths(stream, end, g.key, g.value);
    let at = g.after;
    let n = g.key + g.value;
    copy_from(image, at, n, &mut stream[first..]);
    first + n
}

// The entry at the cursor, behind one that ends at `end`.
fn stage_entry(
    image: &[u8],
    cursor: Cursor,
    change: Change,
    new: NewEntry<'_>,
    end: usize,
    stream: &mut [u8],
) -> Part
    requires { EntryStageable image.now change cursor new.key.now new.value.now end stream.old }
    ensures { EntryStaged image.now change cursor new.entry.key.now new.entry.value.now end stream.old stream.new result }
{
    let next = next_entry(image, cursor, change);
    match next {
        Next::New(after) => {
            let end = put_new(stream, end, new);
            Part { end, after }
        }
        Next::Old(g, after) => {
            let end = put_old(image, g, stream, end);
            Part { end, after }
        }
    }
}

// So many entries from the cursor on, behind the 12 bytes of a header, which are kept. Answers the cursor behind them.
pub fn stage(
    image: &[u8],
    from: Cursor,
    change: Change,
    new: NewEntry<'_>,
    count: usize,
    stream: &mut [u8],
) -> Cursor
    requires { Stageable image.now change from new.key.now new.value.now count stream.old }
    ensures { Staged image.now change from new.entry.key.now new.entry.value.now count stream.old stream.new result }
{
    let mut cursor = from;
    let mut end = 12;
    for _i in 0..count {
        let part = stage_entry(image, cursor, change, new, end, stream);
        end = part.end;
        cursor = part.after;
    }
    cursor
}
