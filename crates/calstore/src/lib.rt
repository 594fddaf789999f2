// The calls for C and Rust, as include/calstore.h declares them.
#![tactic(auto)]

ghost use Rattle.std.specs.Prelude.{[], Ok};
ghost use Rattle.blockfile.specs.Refusals.{check, get, next, put, remove, create, plain, refusal};
ghost use Rattle.blockfile.specs.Calls.{checked_reply, got_reply, wrote_reply};
ghost use Rattle.calstore.specs.Answers.{Bears, Answers};

use blockfile::{Counts, Refusal};
use store::Numbers;

// The numbers of a result; those that an answer has not are 0.
#[repr(C)]
#[derive(Clone, Copy)]
pub struct Answer {
    pub number: u32,
    pub page: u32,
    pub length: u64,
    pub pages: u64,
    pub tables: u64,
    pub keys: u64,
    pub free: u64,
}

// A number and a length, and nothing else.
fn plain(number: u32, length: usize) -> Answer
    ensures { Bears (plain number length) result }
{
    Answer {
        number,
        page: 0,
        length: length as u64,
        pages: 0,
        tables: 0,
        keys: 0,
        free: 0,
    }
}

impl From<Refusal> for Answer {
    ghost from_gives = { λ why a. Bears (refusal why) a };

    fn from(why: Refusal) -> Answer {
        let Numbers { number, length } = Numbers::from(why);
        plain(number, length)
    }
}

impl From<Counts> for Answer {
    ghost from_gives = { λ counts a. Bears (checked_reply (Ok counts)) a };

    fn from(counts: Counts) -> Answer {
        Answer {
            number: 0,
            page: 0,
            length: 0,
            pages: counts.pages as u64,
            tables: counts.tables as u64,
            keys: counts.keys as u64,
            free: counts.free as u64,
        }
    }
}

// What check answers.
impl From<Result<Counts, Refusal>> for Answer {
    ghost from_gives = { λ found a. Bears (checked_reply found) a };

    fn from(found: Result<Counts, Refusal>) -> Answer {
        match found {
            Ok(counts) => Answer::from(counts),
            Err(why) => Answer::from(why),
        }
    }
}

// What get and next answer.
impl From<Result<usize, Refusal>> for Answer {
    ghost from_gives = { λ found a. Bears (got_reply found) a };

    fn from(found: Result<usize, Refusal>) -> Answer {
        match found {
            Ok(length) => plain(0, length),
            Err(why) => Answer::from(why),
        }
    }
}

// What put, remove and create answer.
impl From<Result<(), Refusal>> for Answer {
    ghost from_gives = { λ done a. Bears (wrote_reply done) a };

    fn from(done: Result<(), Refusal>) -> Answer {
        match done {
            Ok(()) => plain(0, 0),
            Err(why) => Answer::from(why),
        }
    }
}

#[unsafe(no_mangle)]
pub extern "C" fn calstore_check(image: &[u8], scratch: &mut [u8]) -> Answer
    ensures { Answers check image.now scratch.old [] result image.now scratch.new [] }
{
    Answer::from(store::check(image, scratch))
}

#[unsafe(no_mangle)]
pub extern "C" fn calstore_get(
    image: &[u8],
    scratch: &mut [u8],
    name: &[u8],
    key: &[u8],
    answer: &mut [u8],
) -> Answer
    ensures { Answers (get name.now key.now) image.now scratch.old answer.old result image.now scratch.new answer.new }
{
    Answer::from(store::get(image, scratch, name, key, answer))
}

#[unsafe(no_mangle)]
pub extern "C" fn calstore_next(
    image: &[u8],
    scratch: &mut [u8],
    name: &[u8],
    key: &[u8],
    answer: &mut [u8],
) -> Answer
    ensures { Answers (next name.now key.now) image.now scratch.old answer.old result image.now scratch.new answer.new }
{
    Answer::from(store::next(image, scratch, name, key, answer))
}

#[unsafe(no_mangle)]
pub extern "C" fn calstore_put(
    image: &mut [u8],
    scratch: &mut [u8],
    name: &[u8],
    key: &[u8],
    value: &[u8],
) -> Answer
    ensures { Answers (put name.now key.now value.now) image.old scratch.old [] result image.new scratch.new [] }
{
    Answer::from(store::put(image, scratch, name, key, value))
}

#[unsafe(no_mangle)]
pub extern "C" fn calstore_remove(
    image: &mut [u8],
    scratch: &mut [u8],
    name: &[u8],
    key: &[u8],
) -> Answer
    ensures { Answers (remove name.now key.now) image.old scratch.old [] result image.new scratch.new [] }
{
    Answer::from(store::remove(image, scratch, name, key))
}

#[unsafe(no_mangle)]
pub extern "C" fn calstore_create(image: &mut [u8], scratch: &mut [u8], name: &[u8]) -> Answer
    ensures { Answers (create name.now) image.old scratch.old [] result image.new scratch.new [] }
{
    Answer::from(store::create(image, scratch, name))
}
