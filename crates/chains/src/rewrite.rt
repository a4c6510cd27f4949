// A page's new code, sum and cells, written into a store.
ghost use Rattle.std.specs.Prelude.{◌≡◌, ◌+◌};
ghost use Rattle.store.specs.Code.Links.{Rewritable, rewritten};

use crate::fill::fill;
use crate::links::{cut, join};
use crate::numbers::put;
use bits::numbers::get;
use store::header::entry_at;

// A page that changes, as a call hands it down (`Rewritable` and `rewritten` stand in store, below it, and so take its numbers one by one):
// its number, the cells that it has, those that it is to have, and its new sum.
#[derive(Clone, Copy)]
pub struct PageChange {
    pub page: usize,
    pub old: usize,
    pub new: usize,
    pub sum: u64,
}

// Gives the page its new cells, the code and the sum, and the store the number of hours. The free chain is joined behind the page's, the
// code is written over as many cells as the page has or had, and the chain is cut after those it keeps: growing and shrinking are one, and
// the cells given back are cleared by the zeros at the code's end.
pub fn rewrite(s: &mut [u8], base: usize, c: PageChange, code: &[u8], hours: usize)
    requires { Rewritable s.old base c.page c.old c.new code.now c.sum hours }
    ensures { s.new ≡ rewritten s.old base c.page c.old c.new code.now c.sum hours }
{
    let old = c.old;
    let new = c.new;
    let entry = entry_at(c.page);
    let own = entry + 4;
    let free = get::<2>(s, 8) as usize;
    let most = old.max(new);
    join(s, base, own, old);
    fill(s, base, own, most, code);
    cut(s, base, own, new);
    put::<2>(s, 8, (free + old - new) as u64);
    put::<4>(s, entry, c.sum);
    put::<4>(s, 12, hours as u64);
}
