// A store brought back to sound.
#![tactic(auto)]

mod write;

ghost use Rattle.std.specs.Prelude.{◌≡◌};
ghost use Rattle.answers.specs.Store.{told_number};
ghost use Rattle.repair.specs.Repair.{Repairs, repairable};

use answers::refusal::Refusal;
use repair_pages::list_lost;
use reserve_table::ReserveTable;
use sound_head::shape_fits;
use store::header::{Header, cells_from};
use write::{drop_pages, free_cells};

// Whether the bytes have a header and a length that can be repaired, and the list room for every page.
fn may_repair(s: &[u8], entries: usize) -> bool
    ensures { result ≡ repairable s.now entries }
{
    if !shape_fits(s) {
        return false;
    }
    let h = Header::of(s);
    h.pages <= entries
}

// Keeps the pages whose bytes are right, makes the others zero and lists them, and chains the cells that remain. All pages are judged
// before a byte is written.
pub fn repair(s: &mut [u8], lost: &mut [u32]) -> Result<u64, Refusal>
    ensures { Repairs s.old lost.old (told_number result) s.new lost.new }
{
    if !may_repair(s, lost.len()) {
        return Err(Refusal::Repair);
    }
    let h = Header::of(s);
    let table = ReserveTable::new();
    let mut marks = [0u8; Header::MARKS];
    let n = list_lost(s, &table, &mut marks, lost);
    drop_pages(s, h.pages, &lost[..n]);
    free_cells(s, cells_from(h.pages), &marks, h.cells);
    Ok(n as u64)
}
