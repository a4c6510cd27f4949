// The check of a tree with a limit for its counts: whether bits are the code of some list that has no count above it. A node of no more
// coins than the limit is the plain check's; so each count is looked at where the check has it at hand, and no page is unpacked for it.
// Place, height, sum and reserve as numbers, and `&&[u8]` as a thin pointer: see `tree` and `tree_walk`.
#![tactic(auto)]

ghost use Rattle.std.specs.Prelude.{◌≡◌, ◌+◌, ◌≤◌};
ghost use Rattle.bits.specs.Bits.{bits};
ghost use Rattle.reserve.specs.Reserve.{reserve as reserved};
ghost use Rattle.tree.specs.Code.Node.{Lies};
ghost use Rattle.tree_lowest.specs.Code.Narrow.{narrow};
ghost use Rattle.tree_narrow.specs.Code.Halves.{Halved};

use bits_field::front;
use reserve::digits_of;
use reserve_table::ReserveTable;
use tree_lowest::{low_within, one_load, zero_bits};

// A node that was read: its left sum, where its two subtrees start, and how many bits each owns, which a `Split` does not know.
#[derive(Clone, Copy)]
pub struct Halves {
    pub left: u64,
    pub first: usize,
    pub own: usize,
    pub second: usize,
    pub rest: usize,
}

// Reads a node of height h + 1 at bit at, which has sum s and owns r bits; none where it is damaged. The plain check takes these steps in
// its own recursion: with one function for both, the compiler no longer joined it with either, and the check took an eighth longer.
fn halve(b: &[u8], table: &ReserveTable, at: usize, h: u32, s: u64, r: usize) -> Option<Halves>
    requires { Lies b.now at (h + 1) s × (r ≡ reserved (h + 1) s) }
    ensures { Halved (bits b.now) at h s result }
{
    let t = digits_of(s);
    let left = front::first(b, at, t);
    let right = s.checked_sub(left)?;
    let own = table.reserve(h, left);
    let rest = table.reserve(h, right);
    let first = at + (t as usize);
    let second = first + own;
    let spare = second + rest;
    if !zero_bits(b, spare, at + r - spare) {
        return None;
    }
    Some(Halves {
        left,
        first,
        own,
        second,
        rest,
    })
}

// The node of height h at bit at, which has sum s and owns r bits, and all below it.
fn narrow_node(
    b: &&[u8],
    table: &ReserveTable,
    at: usize,
    h: u32,
    s: u64,
    r: usize,
    widest: u64,
) -> bool
    requires { Lies b.now.now at h s × (r ≡ reserved h s) × (1 ≤ h) }
    ensures { result ≡ narrow widest h s (bits b.now.now) at }
{
    if s <= widest {
        return tree_check::nodes(*b, table, at, h, s, r);
    }
    if one_load(h, r) {
        return low_within(*b, at, h, s, r, widest);
    }
    let down = h - 1;
    let Some(n) = halve(*b, table, at, down, s, r) else {
        return false;
    };
    if !narrow_node(b, table, n.first, down, n.left, n.own, widest) {
        return false;
    }
    narrow_node(b, table, n.second, down, s - n.left, n.rest, widest)
}

// Whether the tree of 2^h counts with sum s at bit at, which owns r bits, is the code of some list, and none of its counts is above widest.
// A tree within the limit goes to the plain check at once, one call sooner than by `narrow_node`. It keeps the name that docs/ has for it.
pub fn nodes(
    b: &[u8],
    table: &ReserveTable,
    at: usize,
    h: u32,
    s: u64,
    r: usize,
    widest: u64,
) -> bool
    requires { Lies b.now at h s × (r ≡ reserved h s) }
    ensures { result ≡ narrow widest h s (bits b.now) at }
{
    if h == 0 {
        return s <= widest;
    }
    if s <= widest {
        return tree_check::nodes(b, table, at, h, s, r);
    }
    narrow_node(&b, table, at, h, s, r, widest)
}
