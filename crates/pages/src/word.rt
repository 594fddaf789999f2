// Numbers as they stand in an image, big endian, in two bytes or in four.
ghost use Rattle.std.specs.Prelude.{ℕ, List, ◌≡◌, ◌+◌, ◌*◌, ◌-◌, ◌≤◌, length};
ghost use Rattle.std.proofs.lemmas.List.Edits.{sets};
ghost use Rattle.blockfile.specs.Bytes.{pg, be16, be32, word16, word32};
ghost use Rattle.laws.proofs.Pages.{be16-pg, be32-pg};
ghost use Rattle.pages.specs.Places.{Number};
ghost use Rattle.std.proofs.Math.Dec.{lit<};

use crate::write::copy_bytes;

// A width of numbers: u16 stands for two bytes, u32 for four. The numbers themselves are a usize wherever they are used.
pub trait Word {
    // How many bytes a number has.
    ghost width: { ℕ };

    // What all numbers are below.
    ghost bound: { ℕ };

    // The number at a place.
    ghost value: { List ℕ → ℕ → ℕ };

    // The bytes of a number.
    ghost digits: { ℕ → List ℕ };

    // The number at a place of any slice.
    fn read(bytes: &[u8], at: usize) -> usize
        requires { at + width ≤ length bytes.now }
        ensures { Number (value bytes.now at) bound result };

    // A number written at a place of any slice.
    fn store(bytes: &mut [u8], at: usize, v: usize)
        requires { at + width ≤ length bytes.old }
        ensures { bytes.new ≡ sets bytes.old at (digits v) };

    // A number has a byte.
    ghost some: { 1 ≤ width };

    // The number at an offset of a page is the one at its place in the image.
    ghost on_page: { (img : List ℕ) (n o : ℕ) → 1 ≤ n → o + width ≤ 1024 → value (pg img n) o ≡ value img (1024 * (n - 1) + o) };
}

impl Word for u16 {
    ghost width = { 2 };

    ghost bound = { 65536 };

    ghost value = { be16 };

    ghost digits = { word16 };

    ghost some = { lit< tt };

    ghost on_page = { be16-pg };

    fn read(bytes: &[u8], at: usize) -> usize {
        let a = usize::from(bytes[at]);
        let b = usize::from(bytes[at + 1]);
        a * 256 + b
    }

    fn store(bytes: &mut [u8], at: usize, v: usize) {
        let two = ((v % 65536) as u16).to_be_bytes();
        copy_bytes(bytes, at, &two)
    }
}

impl Word for u32 {
    ghost width = { 4 };

    ghost bound = { 4294967296 };

    ghost value = { be32 };

    ghost digits = { word32 };

    ghost some = { lit< tt };

    ghost on_page = { be32-pg };

    fn read(bytes: &[u8], at: usize) -> usize {
        u16::read(bytes, at) * 65536 + u16::read(bytes, at + 2)
    }

    fn store(bytes: &mut [u8], at: usize, v: usize) {
        let four = ((v % 4294967296) as u32).to_be_bytes();
        copy_bytes(bytes, at, &four)
    }
}
