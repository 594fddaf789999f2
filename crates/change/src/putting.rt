// Put on an accepted image: the refusals 4 to 6 and 10, and the change.
ghost use Rattle.blockfile.specs.Refusals.{put};

use crate::Request;
use crate::settle::settle;
use blockfile::Refusal;
use edit::put::put;
use order::sort::sort_of;
use refusals::legal::{is_key, is_value};
use refusals::table::named_table;
use search::table::TableRef;

// Puts the value under the key in the table of the name.
#[derive(Clone, Copy)]
pub struct Put<'a> {
    pub name: &'a [u8],
    pub key: &'a [u8],
    pub value: &'a [u8],
}

impl<'a> Request for Put<'a> {
    ghost op = { λ r. put r.name.now r.key.now r.value.now };

    fn make(self, image: &mut [u8], scratch: &mut [u8], free: usize) -> Result<(), Refusal> {
        let Put { name, key, value } = self;
        let sort = sort_of(name);
        let root = named_table(image, name, is_key(sort, key), is_value(value))?;
        let left = put(image, scratch, TableRef { root, sort }, free, key, value);
        settle(image, left, Refusal::NoRoom)
    }
}
