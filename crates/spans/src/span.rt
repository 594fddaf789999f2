// One span: its pages, its fields, its entries.
ghost use Rattle.blockfile.specs.Bytes.{pg, be32};
ghost use Rattle.heads.specs.Claims.{Lent};
ghost use Rattle.spans.specs.Charts.{Charted};
ghost use Rattle.spans.specs.Entries.{Met};
ghost use Rattle.spans.specs.Parts.{ReadySpan, Reading, VerifiedAll};

use crate::claims::claim_span;
use crate::entry::{Last, Pages, Position, verify_entries};
use entries::place::Place;
use heads::claim::from_head;
use order::sort::Sort;

// What all spans of a table have in common: their max keys, and how their keys sort.
#[derive(Clone, Copy)]
pub struct Rules {
    pub most: usize,
    pub sort: Sort,
}

// A span that was read: the number of its entries, the next span's page, and the last key met.
#[derive(Clone, Copy)]
pub struct Spanned {
    pub size: usize,
    pub next: usize,
    pub last: Last,
}

// Reads the fields and the entries of the span on `page`. No page may be left over: fewer bytes than a page holds are left after the
// entries.
fn read_span<'a>(
    pages: Pages<'a>,
    page: usize,
    previous: usize,
    rules: Rules,
    last: Last,
) -> Option<Spanned>
    requires { Lent pages.image.now pages.scratch.now × ReadySpan rules.sort pages.image.now page pages.more last × Charted pages.image.now (be32 (pg pages.image.now page) 4) pages.more pages.chart.now }
    ensures { Reading rules.sort pages.entry.image.now page previous rules.most last result }
{
    let scratch = pages.scratch;
    let most = rules.most;
    if from_head::<u32>(scratch, page, 8) != previous {
        return None;
    }
    if from_head::<u16>(scratch, page, 16) != most {
        return None;
    }
    let size = from_head::<u16>(scratch, page, 18);
    if most < size {
        return None;
    }
    let start = Position {
        at: Place { page, offset: 20 },
        left: 1004 + 1016 * pages.more,
        last,
    };
    let end = verify_entries(pages, start, size, rules.sort)?;
    if 1016 <= end.left {
        return None;
    }
    Some(Spanned {
        size,
        next: from_head::<u32>(scratch, page, 12),
        last: end.last,
    })
}

// Claims and reads the span on `page`; `previous` is the page of the span before it, or 0, and `last` the last key met. The chart
// may hold anything: it is lent, since making one takes as long as reading some entries. Its parameters have no type in common: two of
// them are written, three are the walk's and change from span to span, and `rules` stays.
pub fn verify_span(
    image: &[u8],
    scratch: &mut [u8],
    chart: &mut [u16; 256],
    page: usize,
    previous: usize,
    rules: Rules,
    last: Last,
) -> Option<Spanned>
    requires { Lent image.now scratch.old × Met rules.sort image.now last }
    ensures { VerifiedAll rules.sort image.now scratch.old page previous rules.most last result scratch.new }
{
    let more = claim_span(scratch, chart, page)?;
    let pages = Pages {
        image,
        scratch,
        chart,
        more,
    };
    read_span(pages, page, previous, rules, last)
}
