// The calls on a lent image. Each is for any bytes: no call has a precondition.
#![tactic(auto)]

ghost use Rattle.std.specs.Prelude.{[], ◌≡◌};
ghost use Rattle.blockfile.specs.Refusals.{check, get, next, put, remove, create, refusal};
ghost use Rattle.blockfile.specs.Calls.{Keeps, checked_reply, got_reply, wrote_reply};

use blockfile::{Counts, Refusal};
use change::Request;
use change::creating::Create;
use change::putting::Put;
use change::removing::Remove;
use order::sort::sort_of;
use pages::write::clear;
use refusals::answer::hand_over;
use refusals::legal::{is_key, is_key_or_empty};
use refusals::open::open;
use refusals::table::open_table;
use search::next::next_key;
use search::table::{TableRef, find};

// Is the image well-formed, and what does it hold.
pub fn check(image: &[u8], scratch: &mut [u8]) -> Result<Counts, Refusal>
    ensures { Keeps check image.now scratch.old [] (checked_reply result) image.now scratch.new [] }
{
    let counts = open(image, scratch)?;
    clear(scratch, image.len());
    Ok(counts)
}

// The value under the key in the table of the name, at the start of the answer buffer. Answers its length.
pub fn get(
    image: &[u8],
    scratch: &mut [u8],
    name: &[u8],
    key: &[u8],
    answer: &mut [u8],
) -> Result<usize, Refusal>
    ensures { Keeps (get name.now key.now) image.now scratch.old answer.old (got_reply result) image.now scratch.new answer.new }
{
    let sort = sort_of(name);
    let root = open_table(image, scratch, name, is_key(sort, key))?;
    hand_over(image, find(image, TableRef { root, sort }, key), answer)
}

// The smallest key above the given one in the table of the name, of all keys for the empty one, at the start of the answer buffer.
// Answers its length.
pub fn next(
    image: &[u8],
    scratch: &mut [u8],
    name: &[u8],
    key: &[u8],
    answer: &mut [u8],
) -> Result<usize, Refusal>
    ensures { Keeps (next name.now key.now) image.now scratch.old answer.old (got_reply result) image.now scratch.new answer.new }
{
    let sort = sort_of(name);
    let root = open_table(image, scratch, name, is_key_or_empty(sort, key))?;
    hand_over(image, next_key(image, TableRef { root, sort }, key), answer)
}

// A call that writes: verifies the image, makes the change with the scratch as its own up to the image's length, and clears that.
fn write<R: Request>(image: &mut [u8], scratch: &mut [u8], request: R) -> Result<(), Refusal>
    ensures { Keeps (R.op request) image.old scratch.old [] (wrote_reply result) image.new scratch.new [] }
{
    let counts = open(image, scratch)?;
    let n = image.len();
    let done = request.make(image, &mut scratch[..n], counts.free);
    clear(scratch, n);
    done
}

// Puts the value under the key in the table of the name: a new key, or a new value for one that is there.
pub fn put(
    image: &mut [u8],
    scratch: &mut [u8],
    name: &[u8],
    key: &[u8],
    value: &[u8],
) -> Result<(), Refusal>
    ensures { Keeps (put name.now key.now value.now) image.old scratch.old [] (wrote_reply result) image.new scratch.new [] }
{
    write(image, scratch, Put { name, key, value })
}

// Removes the key from the table of the name.
pub fn remove(image: &mut [u8], scratch: &mut [u8], name: &[u8], key: &[u8]) -> Result<(), Refusal>
    ensures { Keeps (remove name.now key.now) image.old scratch.old [] (wrote_reply result) image.new scratch.new [] }
{
    write(image, scratch, Remove { name, key })
}

// Creates a table of the name, without keys.
pub fn create(image: &mut [u8], scratch: &mut [u8], name: &[u8]) -> Result<(), Refusal>
    ensures { Keeps (create name.now) image.old scratch.old [] (wrote_reply result) image.new scratch.new [] }
{
    write(image, scratch, Create { name })
}

// The numbers of a refusal: its row in the table, and with 9 the length needed, else 0.
#[derive(Clone, Copy)]
pub struct Numbers {
    pub number: u32,
    pub length: usize,
}

impl From<Refusal> for Numbers {
    ghost from_gives = { λ why n. (n.number ≡ (refusal why).number) × (n.length ≡ (refusal why).len) };

    fn from(why: Refusal) -> Numbers {
        let number = match why {
            Refusal::ImageLength => 1,
            Refusal::ScratchLength => 2,
            Refusal::NotWellFormed => 3,
            Refusal::NameOrKey => 4,
            Refusal::ValueLength => 5,
            Refusal::NoTable => 6,
            Refusal::TableExists => 7,
            Refusal::NoKey => 8,
            Refusal::BufferShort(_) => 9,
            Refusal::NoRoom => 10,
        };
        let length = if let Refusal::BufferShort(needed) = why {
            needed
        } else {
            0
        };
        Numbers { number, length }
    }
}
