// The towers of a table, after its spans: the head, which stands on the first span, and the towers of the other spans.
#![tactic(auto)]

ghost use Rattle.std.specs.Prelude.{ℕ, ◌+◌, ◌*◌, ◌≤◌, List};
ghost use Rattle.blockfile.specs.Layout.{Span};
ghost use Rattle.pages.specs.Places.{Inside};
ghost use Rattle.heads.specs.Claims.{Lent, Kept};
ghost use Rattle.walks.specs.Found.{Decides, FindsAt};
ghost use Rattle.towers.specs.Towers.{Spanned, HasSpans, TowersFound};
ghost use Rattle.towers.specs.Climb.{Repeats, AllAre, Followed, Linked, HasWay, Reach, Tall, TowerFound, Placed, Climb, entry_at};

use heads::claim::{claim, from_head};
use pages::mark::Kind;
use pages::read::get;
use pages::write::put_bytes;

// The levels are the entries of a tower: the page expected at level i stands at 16 + 4·i of a page of their own.

// Whether the `n` bytes from 20 on are each the one that stands four before it.
#[tactic(auto, using(crate::proofs::Levels::repeats_are))]
fn repeats(levels: &[u8; 1024], n: usize) -> bool
    requires { 20 + n ≤ 1024 }
    ensures { Decides (Repeats levels.now n) result }
{
    levels[20..20 + n] == levels[16..16 + n]
}

// Whether the first `n` levels all expect page `v`: the lowest does, and each has the bytes of the one below it.
fn all_are(levels: &[u8; 1024], n: usize, v: usize) -> bool
    requires { n ≤ 252 }
    ensures { Decides (AllAre levels.now n v) result }
{
    n == 0 || get::<u32>(levels, 1, 16) == v && repeats(levels, 4 * n - 4)
}

// The first `height` levels now expect the entries of the tower on `page`.
fn follow(image: &[u8], levels: &mut [u8; 1024], page: usize, height: usize)
    requires { Inside image.now page 16 (4 * height) }
    ensures { Followed image.now page height levels.old levels.new }
{
    let at = 1024 * (page - 1) + 16;
    let end = at + 4 * height;
    put_bytes(levels, 1, 16, &image[at..end])
}

// Whether `target` is one of the spans from `start` on. The links are those of the heads, which stand close together.
fn reaches(scratch: &[u8], start: usize, target: usize) -> bool
    requires { HasWay scratch.now start }
    ensures { (img : List ℕ) → Lent img scratch.now → Linked img start → Decides (Reach img start target) result }
{
    let mut span = start;
    while span != 0 {
        if span == target {
            return true;
        }
        span = from_head::<u32>(scratch, span, 12);
    }
    false
}

// Whether a tower may have this max height, and a current height that is to be `low` to `high`.
fn is_tall(low: usize, high: usize, max: usize, height: usize) -> bool
    ensures { Decides (Tall low high max height) result }
{
    1 <= max && max <= 252 && height <= max && low <= height && height <= high
}

// Claims the tower on `page`, whose current height must be `low` to `high`; answers that height.
fn claim_tower(scratch: &mut [u8], page: usize, low: usize, high: usize) -> Option<usize>
    requires { Kept scratch.old }
    ensures { (img : List ℕ) → Lent img scratch.old → FindsAt Some (TowerFound img scratch.old low high page) result scratch.new }
{
    if !claim(scratch, page, Kind::Tower) {
        return None;
    }
    let height = from_head::<u16>(scratch, page, 10);
    if !is_tall(low, high, from_head::<u16>(scratch, page, 8), height) {
        return None;
    }
    Some(height)
}

// Claims the tower on `page`, which must stand on one of the spans from `start` on and be expected at each of its levels;
// answers its height.
fn place_tower(
    scratch: &mut [u8],
    levels: &[u8; 1024],
    start: usize,
    page: usize,
    top: usize,
) -> Option<usize>
    requires { (top ≤ 252) × HasWay scratch.old start }
    ensures { (img : List ℕ) → Lent img scratch.old → Linked img start
        → FindsAt Some (Placed img scratch.old top levels.now start page) result scratch.new }
{
    let height = claim_tower(scratch, page, 1, top)?;
    let span = from_head::<u32>(scratch, page, 12);
    if !reaches(scratch, start, span) {
        return None;
    }
    if !all_are(levels, height, page) {
        return None;
    }
    Some(height)
}

// Claims the towers of the spans from `start` on, where the first `top` entries of the head lead to them; answers their
// number and 1, for the head. Each turn claims a tower, and each span is passed once in all. With `top` 0 no tower is
// expected, and there is none. The next tower is read from this one's head and not from the levels, which takes less long.
fn claim_others(
    image: &[u8],
    scratch: &mut [u8],
    head: usize,
    top: usize,
    start: usize,
) -> Option<usize>
    requires { Lent image.now scratch.old × Inside image.now head 16 (4 * top) × Linked image.now start }
    ensures { FindsAt Some (Climb image.now scratch.old top start (entry_at image.now head) 1) result scratch.new }
{
    let mut levels = [0u8; 1024];
    follow(image, &mut levels, head, top);
    let mut next = start;
    let mut count = 1;
    let mut page = get::<u32>(&levels, 1, 16);
    while page != 0 {
        let height = place_tower(scratch, &levels, next, page, top)?;
        follow(image, &mut levels, page, height);
        let span = from_head::<u32>(scratch, page, 12);
        next = from_head::<u32>(scratch, span, 12);
        count += 1;
        page = from_head::<u32>(scratch, page, 16);
    }
    if !all_are(&levels, top, 0) {
        return None;
    }
    Some(count)
}

// Claims the head on `head`, which must stand on the span on `first`, and the towers of the spans after it; answers the
// number of towers.
pub fn verify_towers(image: &[u8], scratch: &mut [u8], head: usize, first: usize) -> Option<usize>
    requires { Lent image.now scratch.old × HasSpans image.now first }
    ensures { (z : ℕ) (s : Span) (others : List Span) → Spanned image.now first z s others
        → FindsAt Some (TowersFound image.now scratch.old head s others) result scratch.new }
{
    let top = claim_tower(scratch, head, 0, 252)?;
    if from_head::<u32>(scratch, head, 12) != first {
        return None;
    }
    let start = from_head::<u32>(scratch, first, 12);
    claim_others(image, scratch, head, top, start)
}
