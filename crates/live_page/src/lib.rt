// Questions to one page of a store that is sound or between two pages of a change: such a page has no damage on the way.
#![tactic(auto)]

ghost use Rattle.std.specs.Prelude.{◌≡◌, ◌+◌, ◌≤◌, ◌<◌, get_or};
ghost use Rattle.lists.specs.Lists.{reached, reading, sum};
ghost use Rattle.store.specs.Limits.{page_hours};
ghost use Rattle.store.specs.Plain.{page as page_in};
ghost use Rattle.store.specs.Reading.{list_in};

use pages::entry::Entry;
use store::header::Header;

// Count j of the page.
pub fn count_of(page: &Entry, j: usize) -> u64
    requires { j < page_hours }
    ensures { result ≡ get_or (page_in (list_in page.now.bytes.now) page.now.page) j 0 }
{
    tree_walk::walk(
        &page.code(),
        0,
        Header::HEIGHT,
        page.sum,
        j as u64,
        0,
        false,
    )
    .unwrap()
}

// The sum of what is given and of the page's counts up to j, that one too.
pub fn sum_through(page: &Entry, j: usize, given: u64) -> u64
    requires { (j < page_hours) × (given < 4294967296) }
    ensures { let x = page_in (list_in page.now.bytes.now) page.now.page in
        result ≡ given + reading x j + get_or x j 0 }
{
    tree_walk::walk(
        &page.code(),
        0,
        Header::HEIGHT,
        page.sum,
        j as u64,
        given,
        true,
    )
    .unwrap()
}

// The least index in the page whose prefix sum in it is q or more, with n added. That q is 1 or more is asked in each step of the search
// and no record holds it: q is another number in each.
pub fn search_page(page: &Entry, q: u64, n: u64) -> u64
    requires small { n < 4294967296 }
    requires le_q { (1 ≤ q) × (q ≤ sum (page_in (list_in page.now.bytes.now) page.now.page)) }
    ensures { result ≡ n + reached q (page_in (list_in page.now.bytes.now) page.now.page) }
{
    tree_search::search(&page.code(), 0, Header::HEIGHT, page.sum, q, n).unwrap()
}
