// The search for the page of an image in which a figure is reached.
#![tactic(auto)]

ghost use Rattle.std.specs.Prelude.{◌≤◌, ◌<◌};
ghost use Rattle.image_find.specs.Code.Span.{Narrowable, Between, Narrowed, Hit};

use image::opened::Image;
use image::page::root_of;

// Pages among which a figure is reached, lo to hi, with the root before the first and the root of the last. The figure goes beside it: it
// is the same in all of a search.
#[derive(Clone, Copy)]
pub struct Span {
    pub lo: u64,
    pub hi: u64,
    pub below: u64,
    pub above: u64,
}

// Interpolation: the page where figure q is if all pages of the span have the same sum. Never the last, whose root is known.
fn guess(q: u64, at: Span) -> u64
    requires { Narrowable q at }
    ensures { (at.lo ≤ result) × (result < at.hi) }
{
    let k = (q - 1 - at.below) * (at.hi - at.lo + 1) / (at.above - at.below);
    at.lo + k.min(at.hi - at.lo - 1)
}

// The page to look at next. Where counts are spread evenly the guess finds the page or a near one, and then the next page on the side that
// it missed, up or down, is the best to look at; halving bounds the search where they are not. The first turn is the guess: with a look
// before the loop, `narrow` and the test for one page alone would stand twice.
fn probe(q: u64, at: Span, turn: u64, up: bool) -> u64
    requires { Narrowable q at }
    ensures { (at.lo ≤ result) × (result < at.hi) }
{
    if turn == 0 {
        return guess(q, at);
    }
    if turn < 16 {
        return if up { at.lo } else { at.hi - 1 };
    }
    at.lo + (at.hi - at.lo) / 2
}

// Whether the guess missed the figure upwards, once it was looked at; risen says so of the last look. Kept from then on: a side that
// followed each look would make the next load wait for it.
fn side(turn: u64, up: bool, risen: bool) -> bool {
    if turn == 0 { risen } else { up }
}

// The pages that are left after a look at page mid of them: none for damage. A root that equals q is reached in its page or before.
fn narrow(image: &Image, q: u64, at: Span, mid: u64) -> Option<Span>
    requires { Between image.now.bytes.now q at × (at.lo ≤ mid) × (mid < at.hi) }
    ensures { Narrowed image.now.bytes.now q at result }
{
    let r = root_of(image, mid)?;
    if q <= r.value {
        return Some(Span {
            hi: mid,
            above: r.value,
            ..at
        });
    }
    Some(Span {
        lo: mid + 1,
        below: r.value,
        ..at
    })
}

// The page where figure q is reached, as a span of one, for its promise, `HitAt`, is of a span: none for damage. The last page's root is
// taken to be S.
pub fn find(image: &Image, q: u64) -> Option<Span>
    requires { (1 ≤ q) × (q ≤ image.now.head.total) }
    ensures { Hit image.now.bytes.now q result }
{
    let n = image.head.pages;
    if n == 0 {
        return None;
    }
    let mut at = Span {
        lo: 0,
        hi: n - 1,
        below: 0,
        above: image.head.total,
    };
    let mut turn = 0;
    let mut up = false;
    // A while: how many looks the search takes is not known before it.
    while at.lo < at.hi {
        let next = narrow(image, q, at, probe(q, at, turn, up))?;
        up = side(turn, up, at.lo < next.lo);
        at = next;
        turn += 1;
    }
    Some(at)
}
