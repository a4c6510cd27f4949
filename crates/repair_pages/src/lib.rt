// Which pages of a store that is to be repaired are kept.
#![tactic(auto)]

mod chain;
mod page;

ghost use Rattle.repair_pages.specs.Code.Pages.{Listed, Listing};

use bits::numbers::get;
use page::keep_page;
use reserve_table::ReserveTable;
use store::cells::Cells;
use store::header::{Header, cells_from, entry_at};

// Judges the pages from page 0 on, lists those that are not kept, and says how many these are. The cells of the others are marked. Nothing
// is written to the store, so that each page is judged by its own bytes. The list is the caller's and the answer a number, as C has them
// (hourlog_repair).
pub fn list_lost(
    s: &[u8],
    table: &ReserveTable,
    marks: &mut [u8; Header::MARKS],
    lost: &mut [u32],
) -> usize
    requires { Listing s.now marks.old lost.old }
    ensures { Listed s.now lost.old result marks.new lost.new }
{
    let h = Header::of(s);
    let cells = Cells {
        bytes: s,
        base: cells_from(h.pages),
        count: h.cells,
    };
    let mut total = 0;
    let mut n = 0;
    for p in 0..h.pages {
        if keep_page(&cells, table, h.hours, marks, p, total) {
            total += get::<4>(s, entry_at(p));
        } else {
            lost[n] = p as u32;
            n += 1;
        }
    }
    n
}
