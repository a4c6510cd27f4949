// The check of a tree at its lowest: zeros, and two or four counts out of one load. Place, height, sum and reserve as numbers: see `tree`.
// That the reserve has 57 bits at most and h is 1 or 2 the caller has just seen (`one_load`, `eight_in_word`): no lasting fact.
#![tactic(auto)]

mod four;

ghost use Rattle.std.specs.Prelude.{true, false, [], ◌∷◌, ◌≡◌, ◌+◌, ◌*◌, ◌≤◌, ◌<◌, ◌^◌, length};
ghost use Rattle.lists.specs.Counts.{within};
ghost use Rattle.bits.specs.Bits.{bits, field};
ghost use Rattle.reserve.specs.Reserve.{reserve as reserved};
ghost use Rattle.tree.specs.Code.Exact.{clear, exact};
ghost use Rattle.tree.specs.Code.Node.{Lies};
ghost use Rattle.tree_lowest.specs.Code.Narrow.{narrow};

use crate::four::four_of;
use bits_field::get_field;

// Whether n bits from bit at on are 0. Asked at each node of a tree: over `(0..n).step_by(57)`, whose step knows nothing of the shorter
// last piece, the check of a tree takes 6 to 9 hundredths longer.
pub fn zero_bits(b: &[u8], at: usize, n: usize) -> bool
    requires { (at + n ≤ 8 * length b.now) × (at + n < 2 ^ 63) × (8 ≤ length b.now) }
    ensures { result ≡ clear (bits b.now) at n }
{
    let mut done = 0;
    while done < n {
        let k = (n - done).min(57);
        if get_field(b, at + done, k as u32) != 0 {
            return false;
        }
        done += k;
    }
    true
}

// Whether a tree of 2^h counts that owns r bits is of the lowest two levels and comes out of one load.
pub fn one_load(h: u32, r: usize) -> bool
    ensures { (result ≡ true → (h ≤ 2) × (r ≤ 57)) × (result ≡ false → h ≤ 2 → 57 < r) }
{
    h <= 2 && r <= 57
}

// Whether the number v in r bits is the code of four counts with sum s.
pub fn four_exact(v: u64, r: u32, s: u64) -> bool
    requires { (r ≡ reserved 2 s) × (r ≤ 57) × (v < 2 ^ r) × (s < 1099511627776) }
    ensures { result ≡ exact 2 s (field r v) 0 }
{
    four_of(v, r, s).is_some()
}

// Whether neither of two counts is above widest.
fn both_within(x: u64, y: u64, widest: u64) -> bool
    ensures { result ≡ within widest (x ∷ y ∷ []) }
{
    x <= widest && y <= widest
}

// The lowest two levels, out of one load: whether a tree of two or four counts with sum s at bit at, whose r bits fit one field, is some
// list's code and none of its counts is above widest. No count is above s, so that s is no limit.
pub fn low_within(b: &[u8], at: usize, h: u32, s: u64, r: usize, widest: u64) -> bool
    requires { Lies b.now at h s × (r ≡ reserved h s) × (r ≤ 57) × (1 ≤ h) × (h ≤ 2) }
    ensures { result ≡ narrow widest h s (bits b.now) at }
{
    let v = get_field(b, at, r as u32);
    if h == 1 {
        return v <= s && both_within(v, s - v, widest);
    }
    let Some(f) = four_of(v, r as u32, s) else {
        return false;
    };
    both_within(f.first, f.second, widest) && both_within(f.third, f.fourth, widest)
}
