// Put, remove and create on an accepted image, where table, key and value are not yet known to be allowed: the rows of the refusal table
// from 4 on, then the change.
#![tactic(auto)]

ghost use Rattle.blockfile.specs.Refusals.{Op};
ghost use Rattle.change.specs.Change.{Lending, Changed};

use blockfile::Refusal;

pub mod creating;
pub mod putting;
pub mod removing;
pub mod settle;

// What a call that writes asks for: a type for each of the calls, with the call's name, key and value as far as it has them.
pub trait Request: Copy {
    // the call, as the text has it
    ghost op: { Self → Op };

    // Makes the change that is asked for. `free` is the number of free pages; of the scratch, which is as long as the image, nothing
    // is kept.
    fn make(self, image: &mut [u8], scratch: &mut [u8], free: usize) -> Result<(), Refusal>
        requires { Lending image.old scratch.old free }
        ensures { Changed (op self) image.old result image.new };
}
