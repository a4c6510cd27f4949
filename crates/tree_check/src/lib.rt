// The check of a tree: whether bits are the code of some list. Place, height, sum and reserve as numbers: see `tree`.
#![tactic(auto)]

mod eight;

ghost use Rattle.std.specs.Prelude.{◌≡◌, ◌≤◌};
ghost use Rattle.bits.specs.Bits.{bits};
ghost use Rattle.reserve.specs.Reserve.{reserve as reserved};
ghost use Rattle.tree.specs.Code.Exact.{exact};
ghost use Rattle.tree.specs.Code.Node.{Lies};

use crate::eight::eight_exact;
use bits_field::front;
use reserve::{digits_of, reserve_of};
use reserve_table::ReserveTable;
use tree::node::eight_in_word;
use tree_lowest::{low_within, one_load, zero_bits};

// Whether the node of height h at bit at, which has sum s and owns r bits, and all below it are some list's code. Each node's reserve is
// worked out once, by the node above it, from the table of small reserves that is lent. It ends at eight counts or at four, where one load
// has their bits; two counts always come out of one load, so that it ends above h = 0. The right half comes last, so that the compiler
// makes its call a jump, which it does over `&&[u8]`, a thin pointer (`tree_walk`). The left sum is tested by <: for an answer of true or
// false `checked_sub` and a let-else would be no plainer.
fn check_node(b: &&[u8], table: &ReserveTable, at: usize, h: u32, s: u64, r: usize) -> bool
    requires { Lies b.now.now at h s × (r ≡ reserved h s) × (1 ≤ h) }
    ensures { result ≡ exact h s (bits b.now.now) at }
{
    if s == 0 {
        return true;
    }
    if eight_in_word(h, s) {
        return eight_exact(*b, table, at, s, r);
    }
    if one_load(h, r) {
        return low_within(*b, at, h, s, r, s);
    }
    let down = h - 1;
    let t = digits_of(s);
    let left = front::first(*b, at, t);
    if s < left {
        return false;
    }
    let right = s - left;
    let own = table.reserve(down, left);
    let rest = table.reserve(down, right);
    let first = at + (t as usize);
    let second = first + own;
    let spare = second + rest;
    if !zero_bits(*b, spare, at + r - spare) {
        return false;
    }
    if !check_node(b, table, first, down, left, own) {
        return false;
    }
    check_node(b, table, second, down, right, rest)
}

// Whether the tree of 2^h counts with sum s at bit at, which owns r bits, is the code of some list: no left sum is above its node's sum,
// and the bits left over are zeros. It keeps the name that docs/ has for it.
pub fn nodes(b: &[u8], table: &ReserveTable, at: usize, h: u32, s: u64, r: usize) -> bool
    requires { Lies b.now at h s × (r ≡ reserved h s) }
    ensures { result ≡ exact h s (bits b.now) at }
{
    if h == 0 {
        return true;
    }
    check_node(&b, table, at, h, s, r)
}

// The same of a tree whose reserve is not at hand.
pub fn check(b: &[u8], table: &ReserveTable, at: usize, h: u32, s: u64) -> bool
    requires { Lies b.now at h s }
    ensures { result ≡ exact h s (bits b.now) at }
{
    nodes(b, table, at, h, s, reserve_of(h, s))
}
