// Remove on an accepted image: the refusals 4, 6 and 8, and the change.
ghost use Rattle.blockfile.specs.Refusals.{remove};

use crate::Request;
use crate::settle::settle;
use blockfile::Refusal;
use order::sort::sort_of;
use refusals::legal::is_key;
use refusals::table::named_table;
use remove::remove::remove;
use search::table::TableRef;

// Removes the key from the table of the name.
#[derive(Clone, Copy)]
pub struct Remove<'a> {
    pub name: &'a [u8],
    pub key: &'a [u8],
}

impl<'a> Request for Remove<'a> {
    ghost op = { λ r. remove r.name.now r.key.now };

    fn make(self, image: &mut [u8], scratch: &mut [u8], free: usize) -> Result<(), Refusal> {
        let Remove { name, key } = self;
        let sort = sort_of(name);
        let root = named_table(image, name, is_key(sort, key), true)?;
        let left = remove(image, scratch, TableRef { root, sort }, free, key);
        settle(image, left, Refusal::NoKey)
    }
}
