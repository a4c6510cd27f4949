// What a repair writes.
ghost use Rattle.std.specs.Prelude.{◌≡◌};
ghost use Rattle.live_repair.specs.Code.Writing.{Chainable, Droppable, chained, dropped};

use chains::numbers::put;
use store::header::{Header, cell_at, entry_at};

// Makes the entries of the pages in the list zero, in a store of so many pages.
pub(crate) fn drop_pages(s: &mut [u8], pages: usize, lost: &[u32])
    requires { Droppable s.old lost.now pages }
    ensures { s.new ≡ dropped s.old lost.now }
{
    for p in lost {
        let at = entry_at(*p as usize);
        s[at..at + Header::ENTRY].fill(0);
    }
}

// Clears each cell that has no mark and chains them in rising order. From the last cell to the first, so that a cell's next one is known.
pub(crate) fn free_cells(s: &mut [u8], base: usize, marks: &[u8; Header::MARKS], cells: usize)
    requires { Chainable s.old base cells }
    ensures { s.new ≡ chained s.old base marks.now cells }
{
    let mut next = 0usize;
    let mut free = 0usize;
    for c in (1..=cells).rev() {
        if marks[c] == 0 {
            let at = cell_at(base, c);
            put::<2>(s, at, next as u64);
            s[at + 2..at + Header::CELL].fill(0);
            next = c;
            free += 1;
        }
    }
    put::<2>(s, 6, next as u64);
    put::<2>(s, 8, free as u64);
}
