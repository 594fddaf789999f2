// Create on an accepted image: the refusals 4, 7 and 10, and the change.
ghost use Rattle.blockfile.specs.Refusals.{create};

use crate::Request;
use crate::settle::settle;
use blockfile::Refusal;
use create::create;
use refusals::legal::is_name;
use search::table::find_table;

// Creates a table of the name, without keys.
#[derive(Clone, Copy)]
pub struct Create<'a> {
    pub name: &'a [u8],
}

impl<'a> Request for Create<'a> {
    ghost op = { λ r. create r.name.now };

    fn make(self, image: &mut [u8], scratch: &mut [u8], free: usize) -> Result<(), Refusal> {
        let name = self.name;
        if !is_name(name) {
            return Err(Refusal::NameOrKey);
        }
        if let Some(_) = find_table(image, name) {
            return Err(Refusal::TableExists);
        }
        let left = create(image, scratch, free, name);
        settle(image, left, Refusal::NoRoom)
    }
}
