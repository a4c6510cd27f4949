// The lowest two levels on the way of a walk or a search: four counts whose bits stand in a word, and one of their two pairs.
ghost use Rattle.std.specs.Prelude.{◌+◌, ◌≤◌, ◌<◌};
ghost use Rattle.reserve.specs.Reserve.{reserve};
ghost use Rattle.tree_walk.specs.Code.Pairs.{Entered};

use bits_field::front;
use lists::either;
use reserve::digits_of;

// One of the two pairs of four counts: its sum and its left count, and the sum of the pair that is passed on the way to it.
#[derive(Clone, Copy)]
pub struct Pair {
    pub sum: u64,
    pub count: u64,
    pub passed: u64,
}

// The left pair, or the right one, of four counts with sum s and left sum left, whose bits stand in w behind its k high ones. The pair's
// left count stands behind the left sum, and in the right pair behind the left pair's. Which pair picks numbers alone, without a jump.
pub fn one_pair(w: u64, k: u32, s: u64, left: u64, right: bool) -> Pair
    requires { (left ≤ s) × (k + reserve 2 s < 64) }
    ensures { Entered w k s left right result }
{
    let sum = either(right, s - left, left);
    let passed = either(right, left, 0);
    let count = front::part(w, k + digits_of(s) + digits_of(passed), digits_of(sum));
    Pair { sum, count, passed }
}
