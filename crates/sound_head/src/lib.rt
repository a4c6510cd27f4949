// The header of a store.
#![tactic(auto)]

ghost use Rattle.std.specs.Prelude.{◌≡◌};
ghost use Rattle.lists.specs.Lists.{every};
ghost use Rattle.store.specs.Shape.{shape_tests};
ghost use Rattle.store.specs.Code.Checked.{head_tests};

use bits::numbers::get;
use store::header::Header;
use store::limits::fits;
use store::total::page_sums;

// Whether the header and the length are those of a store, whatever its pages and its free chain are. A bool, as the contract is then the
// list of tests itself; the header is read again where it is needed, five numbers. Tested in document 01's order; the edition and the zero
// byte behind it are one number.
pub fn shape_fits(s: &[u8]) -> bool
    ensures { result ≡ every (shape_tests s.now) }
{
    if s.len() < Header::SIZE {
        return false;
    }
    if get::<2>(s, 0) != Header::EDITION as u64 {
        return false;
    }
    if get::<2>(s, 10) != 0 {
        return false;
    }
    let h = Header::of(s);
    if !fits(s, h.pages, h.cells) {
        return false;
    }
    h.hours <= Header::HOURS * h.pages
}

// Whether they are, and the total of the pages fits.
pub fn head_fits(s: &[u8]) -> bool
    ensures { result ≡ every (head_tests s.now) }
{
    if !shape_fits(s) {
        return false;
    }
    let h = Header::of(s);
    page_sums(s, h.pages) <= Header::MAX_TOTAL
}
