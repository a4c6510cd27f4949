// A page's code along its chain.
ghost use Rattle.std.specs.Prelude.{◌≡◌, ◌+◌, ◌*◌, ◌≤◌, ◌<◌, length};
ghost use Rattle.store.specs.Code.Links.{Steps, filled};

use crate::block::put_block;
use store::header::{Header, cell_at};
use store::link::link;

// Puts the code into the n cells from the link at address e on, 30 bytes each.
pub(crate) fn fill(s: &mut [u8], base: usize, e: usize, n: usize, code: &[u8])
    requires { (base < 65536) × (30 * n ≤ length code.now) × Steps s.old base e n }
    ensures { s.new ≡ filled s.old base e n code.now }
{
    let mut at = e;
    // By index: `filled` speaks of the code from each cell's 30 bytes on, and a chunk of it would be a list of its own.
    for j in 0..n {
        at = cell_at(base, link(s, at));
        let from = Header::CODE * j;
        put_block(s, at + 2, &code[from..from + Header::CODE]);
    }
}
