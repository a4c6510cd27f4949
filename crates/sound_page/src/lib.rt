// The tests of a page's code, which was gathered from its cells.
#![tactic(auto)]

ghost use Rattle.std.specs.Prelude.{true, ◌≡◌, ◌*◌, take};
ghost use Rattle.lists.specs.Lists.{same};
ghost use Rattle.bits.specs.Bits.{bits};
ghost use Rattle.tree.specs.Read.{counts};
ghost use Rattle.tree.specs.Code.Exact.{exact};
ghost use Rattle.store.specs.PageCode.{cells};
ghost use Rattle.store.specs.Code.Checked.{quiet};
ghost use Rattle.sound_page.specs.Code.Page.{HandedPage, page_code_fits};

use reserve_table::ReserveTable;
use store::header::Header;

// Whether the hours from the number of hours logged on are zero in page p of sum s: those before them have the whole sum.
fn hours_fit(code: &[u8; Header::PAGE_ROOM], s: u64, p: usize, hours: usize) -> bool
    requires { HandedPage s p hours × (exact 6 s (bits code.now) 0 ≡ true) }
    ensures { result ≡ same (counts 6 s (bits code.now) 0) (quiet hours p (counts 6 s (bits code.now) 0)) }
{
    let first = Header::HOURS * p;
    if first + Header::HOURS <= hours {
        return true;
    }
    if hours <= first {
        return s == 0;
    }
    let last = (hours - first - 1) as u64;
    tree_walk::walk(code, 0, Header::HEIGHT, s, last, 0, true).is_some_and(|r| r == s)
}

// Whether the bytes of k cells at the front of code are those of page p of sum s, by the table of small reserves that is lent.
pub fn page_fits(
    code: &[u8; Header::PAGE_ROOM],
    table: &ReserveTable,
    k: usize,
    s: u64,
    p: usize,
    hours: usize,
) -> bool
    requires { HandedPage s p hours × (k ≡ cells s) }
    ensures { result ≡ page_code_fits (take (30 * k) code.now) s p hours }
{
    if s == 0 {
        return true;
    }
    if !tree_check::check(code, table, 0, Header::HEIGHT, s) {
        return false;
    }
    let used = reserve::reserve_of(Header::HEIGHT, s);
    if !tree_lowest::zero_bits(code, used, Header::BITS * k - used) {
        return false;
    }
    hours_fit(code, s, p, hours)
}
