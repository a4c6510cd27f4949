// How many cells a page has, and the cells of a store.
ghost use Rattle.std.specs.Prelude.{◌≡◌, ◌+◌, ◌*◌, ◌≤◌, ◌<◌, length};
ghost use Rattle.bits.specs.Numbers.{Number};
ghost use Rattle.lists.specs.Lists.{part};
ghost use Rattle.store.specs.Code.Checked.{Unmarked};
ghost use Rattle.store.specs.Layout.{cell_at, header_length};
ghost use Rattle.store.specs.Limits.{max_cells, max_total};
ghost use Rattle.store.specs.PageCode.{cells};

use crate::header::Header;
use crate::limits::one_to;
use crate::link::link;

// How many cells a page of sum s has.
pub fn cells_of(s: u64) -> usize
    requires { s ≤ max_total }
    ensures { (result ≡ cells s) × (result ≤ 8) }
{
    (reserve::reserve_of(Header::HEIGHT, s) + (Header::BITS - 1)) / Header::BITS
}

// The cells of a store that is looked at: its bytes, where the cells start, and how many there are. The bytes are lent: so a walk that
// writes to the store hands on the bytes and base, and says of the bytes as they are then where its chain leads.
#[derive(Clone, Copy)]
pub struct Cells<'a> {
    pub bytes: &'a [u8],
    pub base: usize,
    pub count: usize,
    ghost high: { header_length ≤ base },
    ghost low: { base < 65536 },
    ghost size: { length bytes.now ≡ base + 32 * count },
    ghost few: { count ≤ max_cells },
}

impl Cells<'_> {
    // The link at address at, whatever it names.
    pub fn link(&self, at: usize) -> usize
        requires { at + 2 ≤ length self.now.bytes.now }
        ensures { Number self.now.bytes.now at 2 result }
    {
        link(self.bytes, at)
    }

    // The cell that the link at address at names, if it names one, and one that has no mark. A link 0 or behind the last cell names none.
    pub fn unmarked(&self, at: usize, marks: &[u8; Header::MARKS]) -> Option<usize>
        requires { at + 2 ≤ length self.now.bytes.now }
        ensures { Unmarked self.now.bytes.now self.now.count marks.now at result }
    {
        let c = self.link(at);
        if !one_to(c, self.count) {
            return None;
        }
        if marks[c] != 0 {
            return None;
        }
        Some(c)
    }

    // Where cell c starts.
    pub fn at(&self, c: usize) -> usize
        requires { (1 ≤ c) × (c ≤ self.now.count) }
        ensures start { result ≡ cell_at self.now.base c }
        ensures inside { result + 32 ≤ length self.now.bytes.now }
    {
        crate::header::cell_at(self.base, c)
    }

    // The 30 bytes of code of the cell that starts at address at.
    pub fn code(&self, at: usize) -> &[u8]
        requires { at + 32 ≤ length self.now.bytes.now }
        ensures part { result.now ≡ part self.now.bytes.now (at + 2) 30 }
        ensures len { length result.now ≡ 30 }
    {
        &self.bytes[at + 2..at + Header::CELL]
    }
}
