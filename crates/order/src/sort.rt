// How the keys of a table sort, which its name tells: by unsigned bytes, or as numbers of four bytes.
ghost use Rattle.std.specs.Prelude.{◌≡◌, cond, ◌<◌, ltb, eqb};
ghost use Rattle.order.specs.declared.sort.Sort.TheVariants.{Bytes, Numbers};
ghost use Rattle.order.specs.Sorts.{table_sort, sign_as, turn, turned, LengthsAre};

// The order of the keys of a table.
#[derive(Clone, Copy)]
pub enum Sort {
    Bytes,
    Numbers,
}

// The least and the greatest length of a key.
#[derive(Clone, Copy)]
pub struct Lengths {
    pub least: usize,
    pub most: usize,
}

// How the keys of a table sort whose name begins with this byte: as numbers under "#". No `From`, since not every byte tells a sort.
pub fn sort_by(b: u8) -> Sort
    ensures { result ≡ cond (eqb b 0x23) Numbers Bytes }
{
    if b == 0x23 {
        Sort::Numbers
    } else {
        Sort::Bytes
    }
}

// How the keys of the table of this name sort.
pub fn sort_of(name: &[u8]) -> Sort
    ensures { result ≡ table_sort name.now }
{
    match name.first() {
        Some(&b) => sort_by(b),
        None => Sort::Bytes,
    }
}

// How long the keys of a table are.
pub fn lengths_of(sort: Sort) -> Lengths
    ensures { LengthsAre sort result }
{
    match sort {
        Sort::Bytes => Lengths {
            least: 1,
            most: 65535,
        },
        Sort::Numbers => Lengths { least: 4, most: 4 },
    }
}

// The sign of a number that begins with this byte: 1 for a negative one, else 2.
pub fn sign_by(b: u8) -> usize
    ensures { result ≡ cond (ltb b 0x80) 2 1 }
{
    if b < 0x80 { 2 } else { 1 }
}

// The sign of a key, which is compared before its bytes. Where keys sort by bytes, all have the same.
pub fn sign_in(sort: Sort, key: &[u8]) -> usize
    ensures { result ≡ sign_as sort key.now }
{
    match sort {
        Sort::Bytes => 0,
        Sort::Numbers => match key.first() {
            Some(&b) => sign_by(b),
            None => 0,
        },
    }
}

// What is added to the first eight bytes of a key as a number, so that they have its order.
pub fn turn_of(sort: Sort) -> usize
    ensures { result ≡ turn sort }
{
    match sort {
        Sort::Bytes => 0,
        Sort::Numbers => 9223372036854775808,
    }
}

// A number of 32 bits whose order is that of the number that the bits stand for, two's complement.
pub fn turned(n: usize) -> usize
    requires { n < 4294967296 }
    ensures { result ≡ turned n }
{
    if n < 2147483648 {
        n + 2147483648
    } else {
        n - 2147483648
    }
}
