// The cells that the pages are to have, before anything is written.
ghost use Rattle.std.specs.Prelude.{◌≤◌, length};
ghost use Rattle.store.specs.Reading.{list_in};
ghost use Rattle.move_plan.specs.Code.Plan.{Counted, Leaves, Needs, Shiftable, shifted};

use crate::shift::Shift;
use bits::numbers::get;
use store::cells::cells_of;
use store::header::entry_at;

// The cells that the pages which move have, and those that they are to have.
#[derive(Clone, Copy)]
pub struct Cells {
    pub had: usize,
    pub asked: usize,
}

// Puts the cells that each page is to have into new, at its number, and adds up: each page's sum loses one count and gains another.
pub fn size_up(s: &[u8], m: Shift, leaving: &[u32], old: &[u8], new: &mut [u8]) -> Cells
    requires shiftable { Shiftable s.now m × (m.end ≤ length leaving.now) × (m.end ≤ length old.now) × (m.end ≤ length new.old) }
    requires leaves { Leaves m (list_in s.now) leaving.now m.end × Counted m (list_in s.now) old.now m.end }
    ensures needs { Needs s.now m result.had result.asked }
    ensures counted { Counted m (shifted m (list_in s.now)) new.new m.end }
{
    let mut had = 0;
    let mut asked = 0;
    for p in m.first..m.end {
        let sum = get::<4>(s, entry_at(p)) - u64::from(leaving[p])
            + u64::from(m.coming(leaving, p));
        let k = cells_of(sum);
        new[p] = k as u8;
        had += usize::from(old[p]);
        asked += k;
    }
    Cells { had, asked }
}
