// Chains of cells: walked, joined and cut. Where the cells start and from which link a chain goes on are handed on as numbers, and each
// contract says what chain there is (`Steps`): join, cut and fill write to the bytes that it speaks of, so no struct can hold it.
ghost use Rattle.std.specs.Prelude.{◌≡◌, ◌+◌, ◌≤◌, ◌<◌, length};
ghost use Rattle.store.specs.Code.Links.{nth_link, Steps, joined, cut as cut_at};

use crate::numbers::put;
use store::header::cell_at;
use store::link::link;

// The address of the link that k cells from the link at address a lead to.
pub(crate) fn link_after(s: &[u8], base: usize, a: usize, k: usize) -> usize
    requires { (base < 65536) × Steps s.now base a k }
    ensures { (result ≡ nth_link s.now base a k) × (result + 2 ≤ length s.now) }
{
    let mut at = a;
    // A step along a chain is this one line, here, in fill and in pages: an iterator over the cells would lend the bytes, to which fill
    // writes, and for the two that only read it is no shorter.
    for _ in 0..k {
        at = cell_at(base, link(s, at));
    }
    at
}

// Puts the free chain behind the chain of k cells from the link at address e on.
pub(crate) fn join(s: &mut [u8], base: usize, e: usize, k: usize)
    requires { (base < 65536) × (8 ≤ length s.old) × Steps s.old base e k }
    ensures { s.new ≡ joined s.old base e k }
{
    let end = link_after(s, base, e, k);
    let first_free = link(s, 6);
    put::<2>(s, end, first_free as u64);
}

// Cuts the chain from the link at address e on after k cells: the rest is the free chain.
pub(crate) fn cut(s: &mut [u8], base: usize, e: usize, k: usize)
    requires { (base < 65536) × (8 ≤ length s.old) × Steps s.old base e k }
    ensures { s.new ≡ cut_at s.old base e k }
{
    let end = link_after(s, base, e, k);
    let rest = link(s, end);
    put::<2>(s, 6, rest as u64);
    put::<2>(s, end, 0);
}
