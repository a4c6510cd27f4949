// The limits of a store.
ghost use Rattle.std.specs.Prelude.{◌&&◌, ◌≡◌, ◌≤◌, ◌↔◌, IsTrue, leb};
ghost use Rattle.store.specs.Fitting.{fits as fitting};

use crate::header::{Header, cells_from};

// Whether n is one of the numbers 1 to most.
pub fn one_to(n: usize, most: usize) -> bool
    ensures value { result ≡ (leb 1 n && leb n most) }
    ensures within { IsTrue result ↔ (1 ≤ n) × (n ≤ most) }
{
    (1..=most).contains(&n)
}

// Whether so many pages and cells are within the limits, and the bytes have their length.
pub fn fits(s: &[u8], pages: usize, cells: usize) -> bool
    ensures { result ≡ fitting s.now pages cells }
{
    if !one_to(pages, Header::MAX_PAGES) {
        return false;
    }
    if !one_to(cells, Header::MAX_CELLS) {
        return false;
    }
    s.len() == cells_from(pages) + Header::CELL * cells
}
