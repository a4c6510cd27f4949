// Whether a page can be kept.
ghost use Rattle.repair_pages.specs.Code.Page.{Judged, Judging};

use crate::chain::{chain_fits, mark_chain};
use bits::numbers::get;
use reserve_table::ReserveTable;
use sound_page::page_fits;
use store::cells::{Cells, cells_of};
use store::header::{Header, entry_at};

// Whether page p is kept, where the cells of the pages kept before it are marked and have this total. If so its cells are marked too: only
// then, so that a page that is not kept bars no other.
pub(crate) fn keep_page(
    cells: &Cells,
    table: &ReserveTable,
    hours: usize,
    marks: &mut [u8; Header::MARKS],
    p: usize,
    total: u64,
) -> bool
    requires { Judging cells.now.bytes.now cells.now.base cells.now.count hours p total }
    ensures { Judged cells.now.bytes.now marks.old p total result marks.new }
{
    let entry = entry_at(p);
    let sum = get::<4>(cells.bytes, entry);
    if Header::MAX_TOTAL - total < sum {
        return false;
    }
    let k = cells_of(sum);
    let mut code = [0u8; Header::PAGE_ROOM];
    if !chain_fits(cells, marks, entry + 4, k, &mut code) {
        return false;
    }
    if !page_fits(&code, table, k, sum, p, hours) {
        return false;
    }
    mark_chain(cells, entry + 4, k, marks);
    true
}
