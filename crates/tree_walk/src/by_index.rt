// The walk to a count by its index. It takes its numbers one by one: with acc and keep in a struct, which goes through memory, count and
// reading take 9 to 23 % longer. keep is 0 or 1 and is multiplied, so that there is no jump on it.
ghost use Rattle.std.specs.Prelude.{List, ◌≡◌, ℕ, ◌+◌, ◌^◌, ◌≤◌, ◌<◌};
ghost use Rattle.bits.specs.Bits.{bits};
ghost use Rattle.reserve.specs.Reserve.{reserve};
ghost use Rattle.tree.specs.Read.{walk as walked};
ghost use Rattle.tree.specs.Code.Node.{Lies};
ghost use Rattle.tree.specs.Code.InWord.{InWord, eight_limit};
ghost use Rattle.tree_walk.specs.Code.Answers.{number_of, walk_answer};

use crate::pairs::one_pair;
use bits_field::front;
use lists::either;
use reserve::{digits_of, reserve_of};
use tree::node::{eight_in_word, one_word, root_by_shifts};

// How the walk down answers damage, `damage_word`: 2^63, above every sum.
pub(crate) const DAMAGED: u64 = 9223372036854775808;

// Count j of the four counts with sum s whose bits stand in w behind its k high ones, as `walk` answers it. The left sum is tested by <, as
// what is left of s is `one_pair`'s to know.
fn walk_four(w: u64, k: u32, s: u64, j: u64, acc: u64, keep: u64) -> Option<u64>
    requires { (k + reserve 2 s < 64) × (acc + s < 2 ^ 64) × (keep ≤ 1) }
    ensures { (b : List ℕ) (a : ℕ) → InWord b a 2 s w k → result ≡ walk_answer acc keep (walked 2 s b a j) }
{
    let left = front::part(w, k, digits_of(s));
    if s < left {
        return None;
    }
    let p = one_pair(w, k, s, left, 2 <= j);
    let second = p.sum.checked_sub(p.count)?;
    let first = j - either(2 <= j, 2, 0) == 0;
    let within = either(first, p.count, second + keep * p.count);
    Some(acc + keep * p.passed + within)
}

// Count j of the eight counts with sum s at bit at, where their bits are in one word, as the test `eight_in_word` has just shown.
fn walk_eight(b: &[u8], at: usize, s: u64, j: u64, acc: u64, keep: u64) -> Option<u64>
    requires { Lies b.now at 3 s × (s < eight_limit) × (acc + s < 2 ^ 64) × (keep ≤ 1) }
    ensures { result ≡ walk_answer acc keep (walked 3 s (bits b.now) at j) }
{
    let w = front::load(b, at);
    let t = digits_of(s);
    let left = front::part(w, 0, t);
    let right = s.checked_sub(left)?;
    if j < 4 {
        return walk_four(w, t, left, j, acc, keep);
    }
    let k = t + reserve_of(2, left) as u32;
    walk_four(w, k, right, j - 4, acc + keep * left, keep)
}

// The walk from the node at bit at down to count j below it. Answers one number, so that its last call is a jump.
pub(crate) fn walk_node(b: &&[u8], at: usize, h: u32, s: u64, j: u64, acc: u64, keep: u64) -> u64
    requires { Lies b.now.now at h s × (acc + s < 2 ^ 64) × (keep ≤ 1) }
    ensures { result ≡ number_of (walk_answer acc keep (walked h s (bits b.now.now) at j)) }
{
    if s == 0 {
        return acc;
    }
    if eight_in_word(h, s) {
        return walk_eight(*b, at, s, j, acc, keep).unwrap_or(DAMAGED);
    }
    if one_word(h, s) {
        return walk_four(front::load(*b, at), 0, s, j, acc, keep).unwrap_or(DAMAGED);
    }
    if h == 0 {
        return acc + s;
    }
    let down = h - 1;
    let Some(r) = root_by_shifts(*b, at, down, s) else {
        return DAMAGED;
    };
    let half = reserve::power(down);
    if j < half {
        return walk_node(b, r.first, down, r.left, j, acc, keep);
    }
    walk_node(
        b,
        r.second,
        down,
        s - r.left,
        j - half,
        acc + keep * r.left,
        keep,
    )
}
