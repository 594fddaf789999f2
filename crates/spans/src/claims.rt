// The pages of a span, claimed by their heads before their entries are read.
ghost use Rattle.std.specs.Prelude.{List, ℕ, ◌≤◌, ◌<◌};
ghost use Rattle.heads.specs.Claims.{Lent, Kept};
ghost use Rattle.spans.specs.Charts.{Noted};
ghost use Rattle.spans.specs.Parts.{ContsClaimed, PagesClaimed};

use heads::claim::{claim, from_head};
use pages::mark::Kind;

// Notes the continuation page of this index in the chart, which has every sixteenth.
fn note(chart: &mut [u16; 256], index: usize, page: usize)
    requires { (index < 4096) × (page ≤ 4096) }
    ensures { Noted chart.old index page chart.new }
{
    if index % 16 == 0 {
        chart[index / 16] = page as u16;
    }
}

// Claims the continuation pages from `start` on, along their links up to 0, and notes them in the chart; answers their number. A page
// is claimed once, so a ring is refused.
fn claim_conts(scratch: &mut [u8], chart: &mut [u16; 256], start: usize) -> Option<usize>
    requires { Kept scratch.old }
    ensures { (img : List ℕ) → Lent img scratch.old → ContsClaimed img scratch.old start result scratch.new chart.new }
{
    let mut page = start;
    let mut count = 0;
    while page != 0 {
        if !claim(scratch, page, Kind::Continuation) {
            return None;
        }
        note(chart, count, page);
        count += 1;
        page = from_head::<u32>(scratch, page, 4);
    }
    Some(count)
}

// Claims the page of a span and its continuation pages, and notes these in the chart; answers their number.
pub fn claim_span(scratch: &mut [u8], chart: &mut [u16; 256], page: usize) -> Option<usize>
    requires { Kept scratch.old }
    ensures { (img : List ℕ) → Lent img scratch.old → PagesClaimed img scratch.old page result scratch.new chart.new }
{
    if claim(scratch, page, Kind::Span) {
        let first = from_head::<u32>(scratch, page, 4);
        return claim_conts(scratch, chart, first);
    }
    None
}
