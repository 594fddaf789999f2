// The kinds of page, and the marks that they begin with.
ghost use Rattle.std.specs.Prelude.{[], ◌≡◌, ◌+◌, ◌≤◌, length, drop, get_or};
ghost use Rattle.blockfile.specs.Marks.{marks};
ghost use Rattle.pages.specs.Begins.{begins};
ghost use Rattle.pages.specs.Kinds.{kind_at, IsMark};

use crate::read::word64;

// The kinds of page, in the order of their marks in the text's table.
#[derive(Clone, Copy)]
pub enum Kind {
    Superblock,
    SkipList,
    Tower,
    Span,
    Continuation,
    Block,
    Free,
}

// The table of the marks by kind, each as the number that its bytes are with zeros behind them up to eight, and its length: the
// superblock's, "SkipList", "BSLevels", "Span", "CONT", "#frList#" and "~!FREE!~". As numbers, and not as bytes, a mark of a known
// kind is a constant in the compiled code.
pub const MARKS: [(usize, usize); 7] = [
    (0x3141de4932500000, 6),
    (0x536b69704c697374, 8),
    (0x42534c6576656c73, 8),
    (0x5370616e00000000, 4),
    (0x434f4e5400000000, 4),
    (0x2366724c69737423, 8),
    (0x7e2146524545217e, 8),
];

// The place of a kind's mark in the table.
fn row(kind: Kind) -> usize
    ensures { result ≡ kind_at kind }
{
    kind as usize
}

// The mark of a kind: its number, and its length.
pub fn mark(kind: Kind) -> (usize, usize)
    ensures { IsMark kind result.0 result.1 }
{
    MARKS[row(kind)]
}

// Whether the bytes from `at` on begin with the mark of the kind: eight bytes as a number, and the mark's number, both cut off
// behind the mark, are the same.
pub fn bears(bytes: &[u8], at: usize, kind: Kind) -> bool
    requires { at + 8 ≤ length bytes.now }
    ensures { result ≡ begins (get_or marks (kind_at kind) []) (drop at bytes.now) }
{
    let (number, length) = mark(kind);
    let behind = 64 - 8 * length;
    word64(bytes, at) >> behind == number >> behind
}
