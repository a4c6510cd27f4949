// The walk down a tree to a count by its index, a recursion in which h falls, one level a call; `tree_search` has the one to an index by a
// prefix sum. It ends at eight counts or four, whose bits come out of one load, or at one count where these do not fit a word. On the way
// down it answers one number, and goes over `&&[u8]`, a thin pointer: the compiler then makes the call that a function ends with a jump,
// which it does not where an Option is answered or a slice is handed on (docs/BENCHMARK.md).
#![tactic(auto)]

mod by_index;
pub mod pairs;

ghost use Rattle.std.specs.Prelude.{◌≡◌, ◌+◌, ◌^◌, ◌<◌};
ghost use Rattle.std.specs.Int.{from_bool};
ghost use Rattle.bits.specs.Bits.{bits};
ghost use Rattle.tree.specs.Read.{walk as walked};
ghost use Rattle.tree.specs.Code.Node.{Lies};
ghost use Rattle.tree_walk.specs.Code.Answers.{walk_answer};

use by_index::{DAMAGED, walk_node};

// Walks to count j of the tree of 2^h counts with sum s at bit at. Answers one number: acc plus the count, and plus the sum of the counts
// before it where keep is set; none for damage. So one walk serves a count and a reading, and keep switches no step of it. A tree of sum 0
// has zeros alone, and its walk ends at once. Place, height and sum as numbers: see `tree`.
pub fn walk(b: &[u8], at: usize, h: u32, s: u64, j: u64, acc: u64, keep: bool) -> Option<u64>
    requires { Lies b.now at h s × (acc + s < 2 ^ 64) }
    ensures { result ≡ walk_answer acc (from_bool keep) (walked h s (bits b.now) at j) }
{
    let found = walk_node(&b, at, h, s, j, 0, u64::from(keep));
    if found == DAMAGED {
        return None;
    }
    Some(acc + found)
}
