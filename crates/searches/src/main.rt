// Reads an image of at most 32,768 bytes from standard input, verifies it, and compares the search by the towers with the plain search on
// it: for every name and every key of every table, for keys beside them, and for the empty key. Writes one line: how many names and keys
// there were, how many searches by each of the two, and for how many of these the spans differ.
#![tactic(auto)]

ghost use Rattle.std.specs.Prelude.{◌≤◌, length, IfOk};

use compare::compare_tables;
use refusals::open::open;
use std::io::{self, Print, Read};

mod compare;

// Reads until the buffer is full or the input ends, and answers how many bytes it read. By hand, as in the program `card`, whose source
// says why.
fn read_full<R: Read>(reader: &mut R, buffer: &mut [u8]) -> io::Result<usize>
    ensures { IfOk result (λ n. n ≤ length buffer.new) }
{
    let mut done = 0;
    while done < buffer.len() {
        let n = reader.read(&mut buffer[done..])?;
        if n == 0 {
            break;
        }
        done += n;
    }
    Ok(done)
}

// The arrays stand in a function of their own, which an input that is too long does not enter: a function zeroes its arrays at entry.
fn compare_card<R: Print>(rt: &R, image: &[u8]) -> io::Result<()> {
    let mut scratch = [0u8; 32768];
    let mut name = [0u8; 65536];
    let mut key = [0u8; 65536];
    let Ok(_) = open(image, &mut scratch) else {
        return println!(rt; "refused");
    };
    let tally = compare_tables(image, &mut name, &mut key);
    println!(rt;
        "keys {} searches {} different {}",
        tally.keys, tally.searches, tally.different
    )
}

fn main(rt: HostRuntime) -> io::Result<()> {
    // one byte more than an image may have
    let mut input = [0u8; 32769];
    let n = read_full(&mut rt.reader(), &mut input)?;
    if 32768 < n {
        return println!(rt; "too long");
    }
    compare_card(&rt, &input[..n])
}
