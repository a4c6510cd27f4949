// The free chain, and that every cell was met.
#![tactic(auto)]

ghost use Rattle.std.specs.Prelude.{◌≡◌, ◌+◌, ◌≤◌, ◌↔◌, EachIndex, IsTrue, length, replicate, slice_index};
ghost use Rattle.lists.specs.Lists.{part, same};
ghost use Rattle.sound_free.specs.Code.Free.{free_chain_fits};

use store::cells::Cells;
use store::header::Header;

// Whether each byte of s is b.
fn all_are(s: &[u8], b: u8) -> bool
    ensures { IsTrue result ↔ EachIndex s.now (λ k. slice_index s.now k ≡ b) }
{
    s.iter().all(|x| *x == b)
}

// Whether the cell that starts at address at is clear: an OR of the 30 bytes of its code, so that a free cell costs no jump for each byte.
fn is_clear(cells: &Cells, at: usize) -> bool
    requires { at + 32 ≤ length cells.now.bytes.now }
    ensures { result ≡ same (part cells.now.bytes.now (at + 2) 30) (replicate 30 0) }
{
    cells.bytes[at + 2..at + Header::CELL]
        .iter()
        .fold(0, |all, b| all | *b)
        == 0
}

// Walks the free chain with the marks that the pages left: whether it has as many cells as the header says, clear and none met before, and
// whether every cell is then marked. The marks come by value, as document 01 names it.
pub fn free_fits(cells: &Cells, met: [u8; Header::MARKS]) -> bool
    ensures { result ≡ free_chain_fits cells.now.bytes.now cells.now.base cells.now.count met }
{
    let mut marks = met;
    let head = Header::of(cells.bytes);
    let mut at = 6;
    for _ in 0..head.free {
        let Some(c) = cells.unmarked(at, &marks) else {
            return false;
        };
        marks[c] = 1;
        at = cells.at(c);
        if !is_clear(cells, at) {
            return false;
        }
    }
    if cells.link(at) != 0 {
        return false;
    }
    all_are(&marks[1..cells.count + 1], 1)
}
