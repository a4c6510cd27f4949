// The counts that leave the pages of a sound store, and the cells that these pages have.
ghost use Rattle.std.specs.Prelude.{◌≤◌, length};
ghost use Rattle.store.specs.Reading.{list_in};
ghost use Rattle.move_plan.specs.Code.Plan.{Counted, Leaves, Shiftable};

use crate::shift::Shift;
use live_page::count_of;
use move_counts::leaves_at;
use pages::entry::entry_of;
use store::sound::Sound;

// Puts the counts that leave the pages into leaving, and the pages' cells into old, each at its page's number.
pub fn look_up(s: &[u8], m: Shift, leaving: &mut [u32], old: &mut [u8])
    requires shiftable { Shiftable s.now m }
    requires end_in_bounds { (m.end ≤ length leaving.old) × (m.end ≤ length old.old) }
    ensures leaves { Leaves m (list_in s.now) leaving.new m.end }
    ensures counted { Counted m (list_in s.now) old.new m.end }
{
    for p in m.first..m.end {
        let page = entry_of(Sound { bytes: s }, p);
        leaving[p] = count_of(&page, leaves_at(m.edit, m.near(p))) as u32;
        old[p] = page.cells as u8;
    }
}
