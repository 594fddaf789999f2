// A list of page numbers in a buffer, four bytes each, big endian: lent memory, since the store has no heap.
ghost use Rattle.std.specs.Prelude.{◌≡◌, ◌+◌, ◌*◌, ◌≤◌, length};
ghost use Rattle.std.proofs.lemmas.List.Edits.{sets};
ghost use Rattle.blockfile.specs.Bytes.{be32, word32};
ghost use Rattle.pages.specs.Places.{Number};

use pages::word::Word;

// The number at an index of the list.
pub fn number_at(numbers: &[u8], i: usize) -> usize
    requires { 4 * i + 4 ≤ length numbers.now }
    ensures { Number (be32 numbers.now (4 * i)) 4294967296 result }
{
    u32::read(numbers, 4 * i)
}

// Stores a number at an index of the list.
pub fn set_number(numbers: &mut [u8], i: usize, v: usize)
    requires { 4 * i + 4 ≤ length numbers.old }
    ensures { numbers.new ≡ sets numbers.old (4 * i) (word32 v) }
{
    u32::store(numbers, 4 * i, v)
}
