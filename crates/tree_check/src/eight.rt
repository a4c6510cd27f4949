// The lowest three levels, out of one load: in place of one for the root and one for each four. The sum is below `eight_limit` by the test
// `eight_in_word`.
ghost use Rattle.std.specs.Prelude.{◌≡◌, ◌<◌};
ghost use Rattle.bits.specs.Bits.{bits};
ghost use Rattle.reserve.specs.Reserve.{reserve as reserved};
ghost use Rattle.tree.specs.Code.Exact.{exact};
ghost use Rattle.tree.specs.Code.InWord.{eight_limit};
ghost use Rattle.tree.specs.Code.Node.{Lies};

use bits_field::front;
use reserve::digits_of;
use reserve_table::ReserveTable;
use tree_lowest::four_exact;

// Whether the eight counts with sum s at bit at, which own r bits, are some list's code: each four as the number in its own bits. The left
// sum is tested by <, as in `check_node`.
pub(crate) fn eight_exact(b: &[u8], table: &ReserveTable, at: usize, s: u64, r: usize) -> bool
    requires { Lies b.now at 3 s × (r ≡ reserved 3 s) × (s < eight_limit) }
    ensures { result ≡ exact 3 s (bits b.now) at }
{
    let w = front::load(b, at);
    let t = digits_of(s);
    let left = front::part(w, 0, t);
    if s < left {
        return false;
    }
    let right = s - left;
    let own = table.reserve(2, left) as u32;
    let rest = table.reserve(2, right) as u32;
    let second = t + own;
    let spare = second + rest;
    if front::part(w, spare, r as u32 - spare) != 0 {
        return false;
    }
    if !four_exact(front::part(w, t, own), own, left) {
        return false;
    }
    four_exact(front::part(w, second, rest), rest, right)
}
