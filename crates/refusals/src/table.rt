// What the calls on a table do first: the refusals 4 to 6; for those that only read, also 1 to 3.
ghost use Rattle.blockfile.specs.WellFormed.{Accepted};
ghost use Rattle.refusals.specs.Table.{NamedTable, Enters};

use crate::legal::is_name;
use crate::open::open;
use blockfile::Refusal;
use pages::write::clear;
use search::table::find_table;

// Finds the skip-list page of the table on an accepted image; `legal` tells whether the call's key is allowed, and `short` whether its value is.
pub fn named_table(image: &[u8], name: &[u8], legal: bool, short: bool) -> Result<usize, Refusal>
    requires { Accepted image.now }
    ensures { NamedTable image.now name.now legal short result }
{
    if !legal || !is_name(name) {
        return Err(Refusal::NameOrKey);
    }
    if !short {
        return Err(Refusal::ValueLength);
    }
    find_table(image, name).ok_or(Refusal::NoTable)
}

// Verifies the image and finds the table, for a call with no value. The scratch is cleared on every way out, since nothing after
// this needs it.
pub fn open_table(
    image: &[u8],
    scratch: &mut [u8],
    name: &[u8],
    legal: bool,
) -> Result<usize, Refusal>
    ensures { Enters image.now scratch.old name.now legal result scratch.new }
{
    open(image, scratch)?;
    clear(scratch, image.len());
    named_table(image, name, legal, true)
}
