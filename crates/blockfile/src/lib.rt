// The trusted text: what an image is and what the calls answer. The definitions stand in specs/; here are the types of the answers.
// A call answers a `Result` with a `Refusal` for its error: check the counts, get and next the length of the value or key, and put,
// remove and create nothing more.
#![tactic(auto)]

// Why a call is refused: the rows of the refusal table, 1 to 10.
#[derive(Clone, Copy)]
pub enum Refusal {
    ImageLength,
    ScratchLength,
    NotWellFormed,
    NameOrKey,
    ValueLength,
    NoTable,
    TableExists,
    NoKey,
    BufferShort(usize),
    NoRoom,
}

// What check counts: P, tables, keys and F.
#[derive(Clone, Copy)]
pub struct Counts {
    pub pages: usize,
    pub tables: usize,
    pub keys: usize,
    pub free: usize,
}
