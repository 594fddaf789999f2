// Reads an image of at most 32,768 bytes from standard input and writes one line: what check says of it.
#![tactic(auto)]

ghost use Rattle.std.specs.Prelude.{◌≤◌, length, IfOk};

use std::io::{self, Print, Read};
use store::Numbers;

// Reads until the buffer is full or the input ends, and answers how many bytes it read. By hand: the library's readers to the end fill a
// `Vec`, which may run out of memory, and ask for few bytes at first, so that the rest of a packet that is longer is lost.
fn read_full<R: Read>(reader: &mut R, buffer: &mut [u8]) -> io::Result<usize>
    ensures { IfOk result (λ n. n ≤ length buffer.new) }
{
    let mut done = 0;
    while done < buffer.len() {
        let n = reader.read(&mut buffer[done..])?;
        if n == 0 {
            break;
        }
        done += n;
    }
    Ok(done)
}

fn main(rt: HostRuntime) -> io::Result<()> {
    // one byte more than an image may have
    let mut input = [0u8; 32769];
    let n = read_full(&mut rt.reader(), &mut input)?;
    if 32768 < n {
        return println!(rt; "too long");
    }
    let mut scratch = [0u8; 32768];
    match store::check(&input[..n], &mut scratch) {
        Ok(counts) => println!(rt;
            "pages {} tables {} keys {} free {}",
            counts.pages, counts.tables, counts.keys, counts.free
        ),
        Err(why) => println!(rt; "refused {}", Numbers::from(why).number),
    }
}
