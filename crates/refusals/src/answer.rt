// The answer buffer: the refusals 8 and 9.
ghost use Rattle.std.specs.Prelude.{List, ℕ};
ghost use Rattle.std.proofs.Math.Option.{Option};
ghost use Rattle.search.specs.Spans.{Answered};
ghost use Rattle.refusals.specs.Answer.{Hands};

use blockfile::Refusal;
use reader::copy_from;
use search::span::Extent;

// Copies the bytes found to the start of the answer buffer, and answers how many they are.
pub fn hand_over(image: &[u8], found: Option<Extent>, answer: &mut [u8]) -> Result<usize, Refusal>
    requires { (o : Option (List ℕ)) × Answered image.now o found }
    ensures { (o : Option (List ℕ)) → Answered image.now o found → Hands o answer.old result answer.new }
{
    let bytes = found.ok_or(Refusal::NoKey)?;
    let n = bytes.length;
    if answer.len() < n {
        return Err(Refusal::BufferShort(n));
    }
    copy_from(image, bytes.at, n, answer);
    Ok(n)
}
