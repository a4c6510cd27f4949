// A table of small reserves, R(2^h, s) for h to 7 and s to 63: for code that works out many of them, as the check of a whole image does.
#![tactic(auto)]

mod entries;

ghost use Rattle.std.specs.Prelude.{◌≡◌, ◌≤◌, ◌<◌};
ghost use Rattle.reserve.specs.Reserve.{reserve};
ghost use Rattle.reserve_table.specs.Code.Tabled.{Tabled};

use entries::RESERVES;
use reserve::{digits_of, formula, power};

// The table: a row of 64 sums for each height, in one array. Any array with `Tabled` makes one, and the crates above promise their
// answers of each: so it is lent to them.
#[derive(Clone, Copy)]
pub struct ReserveTable<'a> {
    pub entries: &'a [u8; 512],
    ghost tabled: { Tabled entries.now },
}

impl ReserveTable<'static> {
    // The table whose entries lie among the program's constants, and take no stack.
    pub fn new() -> Self {
        ReserveTable { entries: &RESERVES }
    }
}

impl ReserveTable<'_> {
    // The reserve of a tree of 2^h counts with sum s: looked up where the table has it, else by the formula. The bound of s is no type of
    // its own, which would be made anew for each half's sum.
    pub fn reserve(&self, h: u32, s: u64) -> usize
        requires { (h ≤ 7) × (s < 1099511627776) }
        ensures { result ≡ reserve h s }
    {
        if s < 64 {
            return usize::from(self.entries[(h as usize) * 64 + (s as usize)]);
        }
        // h is the smaller of h and the digits here, so that nothing is left of what a sparse sum adds
        let t = digits_of(s);
        formula(h, t, s, h, power(h))
    }
}
