// The search down a tree for an index by a prefix sum, the counterpart of `tree_walk`.
#![tactic(auto)]

ghost use Rattle.std.specs.Prelude.{◌≡◌, ◌+◌, ◌≤◌, ◌<◌, ◌^◌};
ghost use Rattle.bits.specs.Bits.{bits};
ghost use Rattle.reserve.specs.Reserve.{digits};
ghost use Rattle.tree.specs.Read.{seek as sought};
ghost use Rattle.tree.specs.Code.Node.{Lies};
ghost use Rattle.tree_search.specs.Code.Answers.{index_of, search_answer};

use bits_field::front;
use lists::either;
use reserve::digits_of;
use tree::node::{one_word, root};
use tree_walk::pairs::one_pair;

// How the search answers damage in one number: an index that it finds is 1 or more.
const NOWHERE: u64 = 0;

// The index that `search` is to find in the four counts with sum s at bit at, which the test `one_word` has just shown to fit one. Both
// tests are by <, as what they leave of a sum is not asked for.
fn search_four(b: &[u8], at: usize, s: u64, q: u64, n: u64) -> Option<u64>
    requires { Lies b.now at 2 s × (digits s ≤ 19) × (n + 4 < 2 ^ 64) }
    ensures { result ≡ search_answer n (sought 2 s (bits b.now) at q) }
{
    let w = front::load(b, at);
    let left = front::part(w, 0, digits_of(s));
    if s < left {
        return None;
    }
    let p = one_pair(w, 0, s, left, left < q);
    if p.sum < p.count {
        return None;
    }
    Some(n + either(left < q, 2, 0) + either(p.count < q - p.passed, 2, 1))
}

// The search from the node at bit at down. Which half it goes to nothing can foretell, so there is no jump on it. For `&&[u8]` and the one
// number that it answers see `tree_walk`.
fn search_node(b: &&[u8], at: usize, h: u32, s: u64, q: u64, n: u64) -> u64
    requires { Lies b.now.now at h s × (n + 2 ^ h < 2 ^ 64) }
    ensures { result ≡ index_of (search_answer n (sought h s (bits b.now.now) at q)) }
{
    if one_word(h, s) {
        return search_four(*b, at, s, q, n).unwrap_or(NOWHERE);
    }
    if h == 0 {
        return n + 1;
    }
    let down = h - 1;
    let Some(r) = root(*b, at, down, s) else {
        return NOWHERE;
    };
    let right = r.left < q;
    let passed = either(right, r.left, 0);
    let hours = either(right, reserve::power(down), 0);
    let sum = either(right, s - r.left, r.left);
    let start = either(right, r.second as u64, r.first as u64);
    search_node(b, start as usize, down, sum, q - passed, n + hours)
}

// Searches for the least index whose prefix sum in the tree is q or more, where 1 ≤ q ≤ s; n counts stand before the tree; none for
// damage. A left sum that equals q is reached in the left half. Place, height and sum as numbers: see `tree`.
pub fn search(b: &[u8], at: usize, h: u32, s: u64, q: u64, n: u64) -> Option<u64>
    requires { Lies b.now at h s × (n + 2 ^ h < 2 ^ 64) }
    ensures { result ≡ search_answer n (sought h s (bits b.now) at q) }
{
    let index = search_node(&b, at, h, s, q, n);
    if index == NOWHERE {
        return None;
    }
    Some(index)
}
