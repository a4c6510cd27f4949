// Four counts out of one number.
ghost use Rattle.std.specs.Prelude.{◌≡◌, ◌≤◌, ◌<◌, ◌^◌};
ghost use Rattle.bits.specs.Bits.{field};
ghost use Rattle.reserve.specs.Reserve.{reserve as reserved};
ghost use Rattle.tree_lowest.specs.Code.Four.{FourIn};

use bits_word::low_bits;
use reserve::digits_of;

// Four counts that were read.
#[derive(Clone, Copy)]
pub struct Four {
    pub first: u64,
    pub second: u64,
    pub third: u64,
    pub fourth: u64,
}

// The four counts with sum s whose code is the number v in r bits: no left sum above its node, and zeros in the bits left over. None where
// it is no list's code.
pub(crate) fn four_of(v: u64, r: u32, s: u64) -> Option<Four>
    requires { (r ≡ reserved 2 s) × (r ≤ 57) × (v < 2 ^ r) × (s < 1099511627776) }
    ensures { FourIn s (field r v) result }
{
    let high = r - digits_of(s);
    let left = v >> high;
    let right = s.checked_sub(left)?;
    let first = digits_of(left);
    let mid = high - first;
    let a = low_bits(v >> mid, first);
    let b = left.checked_sub(a)?;
    let second = digits_of(right);
    let low = mid - second;
    let c = low_bits(v >> low, second);
    let d = right.checked_sub(c)?;
    if low_bits(v, low) != 0 {
        return None;
    }
    Some(Four {
        first: a,
        second: b,
        third: c,
        fourth: d,
    })
}
