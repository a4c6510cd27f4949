// The walk over all pages' chains.
ghost use Rattle.std.specs.Prelude.{true, ◌≡◌};
ghost use Rattle.lists.specs.Lists.{every};
ghost use Rattle.store.specs.Code.Checked.{head_tests};
ghost use Rattle.soundness.specs.Code.Chains.{all_chains_fit};

use bits::numbers::get;
use chains::block::put_block;
use reserve_table::ReserveTable;
use sound_free::free_fits;
use sound_page::page_fits;
use store::cells::{Cells, cells_of};
use store::header::{Header, cells_from, entry_at};

// Walks each page's chain, and marks each cell once; ends at the first broken chain. Of the code only the bytes of the page's cells are
// looked at, so those of an earlier page may stand behind them.
pub(crate) fn chains_fit(s: &[u8], table: &ReserveTable) -> bool
    requires { every (head_tests s.now) ≡ true }
    ensures { result ≡ all_chains_fit s.now }
{
    let h = Header::of(s);
    let base = cells_from(h.pages);
    let cells = Cells {
        bytes: s,
        base,
        count: h.cells,
    };
    let mut marks = [0u8; Header::MARKS];
    let mut code = [0u8; Header::PAGE_ROOM];
    let mut ok = true;
    // Left by its label at the first fault, as document 01 wants it. A cell is marked at once, as no page may have it after this one; a
    // repair (repair_pages) marks the cells of a page only when it is kept, and so walks a chain twice.
    'pages: for p in 0..h.pages {
        let entry = entry_at(p);
        let sum = get::<4>(s, entry);
        let k = cells_of(sum);
        let mut at = entry + 4;
        // By index: behind chunks_mut over code a proof knows no byte of it.
        for j in 0..k {
            let Some(c) = cells.unmarked(at, &marks) else {
                ok = false;
                break 'pages;
            };
            marks[c] = 1;
            at = cells.at(c);
            put_block(&mut code, Header::CODE * j, cells.code(at));
        }
        if cells.link(at) != 0 || !page_fits(&code, table, k, sum, p, h.hours) {
            ok = false;
            break 'pages;
        }
    }
    ok && free_fits(&cells, marks)
}
