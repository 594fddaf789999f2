// The spans of a table: are they well-formed. Each page is claimed by its head before its entries are read.
#![tactic(auto)]

pub mod claims;
pub mod entry;
pub mod span;

ghost use Rattle.std.specs.Prelude.{◌≡◌, ◌≤◌};
ghost use Rattle.heads.specs.Claims.{Lent};
ghost use Rattle.walks.specs.Found.{FindsAt};
ghost use Rattle.order.specs.Sorts.{turn};
ghost use Rattle.spans.specs.Spans.{SpansFound};

use crate::entry::Last;
use crate::span::{Rules, verify_span};
use entries::place::Place;
use order::sort::turn_of;

// What the spans of a table count: keys and spans.
#[derive(Clone, Copy)]
pub struct Counted {
    pub keys: usize,
    pub spans: usize,
}

// Claims and reads the spans of a table from page `start` on; no key has been met yet. Only the first span may be empty. A span is
// read in one place of the code, so that it is compiled into the loop and what it tells stays in registers.
fn walk_spans(
    image: &[u8],
    scratch: &mut [u8],
    chart: &mut [u16; 256],
    start: usize,
    rules: Rules,
    none: Last,
) -> Option<Counted>
    requires { Lent image.now scratch.old × (rules.most ≤ 128) × (none.length ≡ 0) × (turn rules.sort ≤ none.rank) }
    ensures { FindsAt Some (SpansFound rules.sort image.now scratch.old rules.most start) result scratch.new }
{
    let mut page = start;
    let mut previous = 0;
    let mut last = none;
    let mut keys = 0;
    let mut spans = 0;
    loop {
        let span = verify_span(image, scratch, chart, page, previous, rules, last)?;
        if span.size == 0 && spans != 0 {
            return None;
        }
        keys += span.size;
        spans += 1;
        if span.next == 0 {
            return Some(Counted { keys, spans });
        }
        previous = page;
        page = span.next;
        last = span.last;
    }
}

// Claims and reads the spans of a table whose first span is on page `start`.
pub fn verify_spans(image: &[u8], scratch: &mut [u8], start: usize, rules: Rules) -> Option<Counted>
    requires { Lent image.now scratch.old × (rules.most ≤ 128) }
    ensures { FindsAt Some (SpansFound rules.sort image.now scratch.old rules.most start) result scratch.new }
{
    let at = Place { page: 0, offset: 0 };
    let sort = rules.sort;
    let rank = turn_of(sort);
    let none = Last {
        at,
        length: 0,
        rank,
    };
    let mut chart = [0u16; 256];
    walk_spans(image, scratch, &mut chart, start, rules, none)
}
