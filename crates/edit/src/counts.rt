// The counts of a table after its span is rewritten.
ghost use Rattle.std.specs.Prelude.{◌≡◌, [], ◌∷◌};
ghost use Rattle.blockfile.specs.Bytes.{apply};
ghost use Rattle.edit.specs.Counts.{CountsReady, counts_of};

use crate::plan::Plan;
use links::write::{Counts, put_counts};

// Writes the numbers of keys, spans and towers of the plan's table.
pub fn write_counts(image: &mut [u8], plan: Plan)
    requires { CountsReady image.old plan }
    ensures { image.new ≡ apply (counts_of plan ∷ []) image.old }
{
    let counts = Counts {
        size: plan.list.size + plan.shape.entries - plan.links.size,
        spans: plan.list.spans + plan.wants.span.min(1),
        levels: plan.list.levels + plan.wants.tower,
    };
    put_counts(image, plan.root, counts)
}
