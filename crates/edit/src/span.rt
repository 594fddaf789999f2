// A span written from a buffer, which holds the list of its pages and, encoded, its entries.
ghost use Rattle.std.specs.Prelude.{◌+◌, ◌*◌, ◌≤◌, ◌<◌, ◌≡◌, length};
ghost use Rattle.std.proofs.lemmas.List.Edits.{sets};
ghost use Rattle.draw.specs.Writing.{Writable, WroteChain};
ghost use Rattle.edit.specs.Staged.{header, PartReady, WrotePart, stream_in};

use draw::list::set_number;
use draw::write::write_chain;

// What a span's stream begins with: the span's links, its max keys and its number of entries.
// The numbers are as the page has them, so a link is 0 for none.
#[derive(Clone, Copy)]
pub struct Header {
    pub prev: usize,
    pub next: usize,
    pub most: usize,
    pub size: usize,
}

// A span to be written: the index of its first page in the list and its number of pages; its stream in the buffer, which
// begins at this word of four bytes and ends at this byte; the header of the stream.
#[derive(Clone, Copy)]
pub struct Part {
    pub at: usize,
    pub count: usize,
    pub word: usize,
    pub end: usize,
    pub top: Header,
}

// The first 12 bytes of a span's stream, which begins at this word.
pub fn put_header(buffer: &mut [u8], word: usize, top: Header)
    requires { (4 * word + 12 ≤ length buffer.old) × (top.most < 65536) × (top.size < 65536) }
    ensures { buffer.new ≡ sets buffer.old (4 * word) (header top.prev top.next top.most top.size) }
{
    set_number(buffer, word, top.prev);
    set_number(buffer, word + 1, top.next);
    set_number(buffer, word + 2, top.most * 65536 + top.size)
}

// Writes pages of the list with the stream from byte `from` up to `end`.
fn write_stream(image: &mut [u8], buffer: &[u8], at: usize, count: usize, from: usize, end: usize)
    requires { (from ≤ end) × (end ≤ length buffer.now) × Writable image.old buffer.now at count (stream_in buffer.now from end) }
    ensures { WroteChain image.old buffer.now at count (stream_in buffer.now from end) image.new }
{
    write_chain(image, buffer, at, count, &buffer[from..end])
}

// Writes the span whole.
pub fn write_span(image: &mut [u8], buffer: &mut [u8], part: Part)
    requires { PartReady image.old buffer.old part }
    ensures { WrotePart image.old buffer.old part image.new buffer.new }
{
    put_header(buffer, part.word, part.top);
    write_stream(image, buffer, part.at, part.count, 4 * part.word, part.end)
}
