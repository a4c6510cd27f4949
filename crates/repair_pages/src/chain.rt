// A page's chain, looked at with the marks of the cells that are in use.
ghost use Rattle.std.specs.Prelude.{true, ◌≡◌};
ghost use Rattle.bits.specs.Numbers.{number_at};
ghost use Rattle.store.specs.Reading.{chain_from};
ghost use Rattle.store.proofs.CheckChain.{mark_all};
ghost use Rattle.repair_pages.specs.Code.Chain.{Gathered, Handed, chain_kept};

use chains::block::put_block;
use store::cells::Cells;
use store::header::Header;

// Whether the chain from the link at address a on is k cells without a mark, and ends there. Its code is gathered on the way. No more than
// k cells are passed: a chain that runs in a circle does not end there. The check's walk (soundness) is the same but that it marks each
// cell at once: here a cell of a page that is not kept may be another page's.
pub(crate) fn chain_fits(
    cells: &Cells,
    marks: &[u8; Header::MARKS],
    a: usize,
    k: usize,
    code: &mut [u8; Header::PAGE_ROOM],
) -> bool
    requires { Handed cells.now.bytes.now a k }
    ensures { Gathered cells.now.bytes.now cells.now.base cells.now.count a k marks.now result code.new }
{
    let mut at = a;
    // By index: behind chunks_mut over code a proof knows no byte of it.
    for j in 0..k {
        let Some(c) = cells.unmarked(at, marks) else {
            return false;
        };
        at = cells.at(c);
        put_block(code, Header::CODE * j, cells.code(at));
    }
    cells.link(at) == 0
}

// Marks the k cells from the link at address a on, which were looked at.
pub(crate) fn mark_chain(cells: &Cells, a: usize, k: usize, marks: &mut [u8; Header::MARKS])
    requires handed { Handed cells.now.bytes.now a k }
    requires kept { chain_kept cells.now.bytes.now cells.now.base cells.now.count marks.old k (number_at cells.now.bytes.now a 2) ≡ true }
    ensures { marks.new ≡ mark_all marks.old (chain_from cells.now.bytes.now cells.now.base k (number_at cells.now.bytes.now a 2)) }
{
    let mut at = a;
    for _ in 0..k {
        let c = cells.link(at);
        marks[c] = 1;
        at = cells.at(c);
    }
}
