// A fresh store.
#![tactic(auto)]

mod header;

ghost use Rattle.std.specs.Prelude.{◌≡◌, ◌+◌, ◌-◌, ◌*◌, ◌≤◌, ◌<◌, length};
ghost use Rattle.fresh.specs.Code.Cells.{chained};
ghost use Rattle.store.specs.Limits.{max_cells};
ghost use Rattle.store.specs.Call.{Started};
ghost use Rattle.answers.specs.Store.{told_done};

use answers::refusal::Refusal;
use chains::numbers::put;
use header::put_header;
use store::header::{Header, cell_at, cells_from};
use store::limits::fits;

// Links each cell to the next one; the last keeps its link.
fn chain_cells(s: &mut [u8], base: usize, cells: usize)
    requires { (base < 65536) × (1 ≤ cells) × (cells ≤ max_cells) × (length s.old ≡ base + 32 * cells) }
    ensures { s.new ≡ chained s.old base (cells - 1) }
{
    for c in 1..cells {
        put::<2>(s, cell_at(base, c), (c + 1) as u64);
    }
}

// Makes the buffer a fresh store of so many pages and cells.
pub fn fresh(s: &mut [u8], pages: u32, cells: u32) -> Result<(), Refusal>
    ensures { Started s.old pages cells (told_done result) s.new }
{
    let p = pages as usize;
    let c = cells as usize;
    if !fits(s, p, c) {
        return Err(Refusal::Fresh);
    }
    s.fill(0);
    put_header(s, Header::fresh(p, c));
    chain_cells(s, cells_from(p), c);
    Ok(())
}
