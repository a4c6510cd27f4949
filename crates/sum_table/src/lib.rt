// A table of small sums: their binary digits, what trees of 4 to 32 counts with such a sum reserve, and the eight counts of codes with two
// coins at most. For code that decodes many counts: a look-up takes a fraction of the steps of working these out, and has no jump. Places
// in it are made by `as`: std has no From between usize and u32 or u64.
#![tactic(auto)]

mod entries;

ghost use Rattle.std.specs.Prelude.{◌≡◌, true, ◌++◌, ◌*◌, ◌^◌, ◌≤◌, ◌<◌};
ghost use Rattle.bits.specs.Bits.{field};
ghost use Rattle.reserve.specs.Reserve.{digits, reserve};
ghost use Rattle.tree.specs.Code.Exact.{exact};
ghost use Rattle.tree.specs.Read.{counts};
ghost use Rattle.sum_table.specs.Code.Sums.{Sums, quarters};

use entries::SUMS;

// Eight counts, two bits each: the first four in one byte, the other four in another.
#[derive(Clone, Copy)]
pub struct Few {
    pub left: u8,
    pub right: u8,
}

// The table: one array of entries, each kind from a place of its own on, so that one pointer serves. Any array with `Sums` makes one, and
// the crates above promise their answers of each: so it is lent to them.
#[derive(Clone, Copy)]
pub struct SumTable<'a> {
    pub entries: &'a [u8; 864],
    ghost sums: { Sums entries.now },
}

impl SumTable<'static> {
    // The table whose entries lie among the program's constants, and take no stack.
    pub fn new() -> Self {
        SumTable { entries: &SUMS }
    }
}

impl SumTable<'_> {
    // The binary digits of a sum. Sums stay u64 in all contracts, though the rows end at 255: a u8 would need a cast behind each left sum.
    pub fn digits(&self, s: u64) -> u32
        requires { s < 256 }
        ensures { result ≡ digits s }
    {
        u32::from(self.entries[s as usize])
    }

    // The reserve of four counts with sum s.
    pub fn reserve_four(&self, s: u64) -> u32
        requires { s < 256 }
        ensures { result ≡ reserve 2 s }
    {
        u32::from(self.entries[256 + (s as usize)])
    }

    // The reserve of 8, 16 or 32 counts with sum s. Height 3 stands behind the 512 entries of the rows of 256. `reserve_table` has these
    // entries too: decoding takes them from here, so that it has one table and one pointer.
    pub fn reserve(&self, h: u32, s: u64) -> u32
        requires { (3 ≤ h) × (h ≤ 5) × (s < 64) }
        ensures { result ≡ reserve h s }
    {
        u32::from(self.entries[(h as usize) * 64 + 320 + (s as usize)])
    }

    // The eight counts with sum s whose code is the number v. It has three bits a coin.
    pub fn few(&self, s: u64, v: u64) -> Few
        requires { (s < 3) × (v < 2 ^ (3 * s)) }
        ensures { exact 3 s (field (3 * s) v) 0 ≡ true → quarters result.left ++ quarters result.right ≡ counts 3 s (field (3 * s) v) 0 }
    {
        let at = 704 + 2 * ((8 * s + v) as usize);
        Few {
            left: self.entries[at],
            right: self.entries[at + 1],
        }
    }
}
