// The sums in a store's page entries, added up.
ghost use Rattle.std.specs.Prelude.{◌≡◌, ◌≤◌, length};
ghost use Rattle.lists.specs.Lists.{sum, tabulate};
ghost use Rattle.store.specs.Layout.{cells_start};
ghost use Rattle.store.specs.Limits.{max_pages};
ghost use Rattle.store.specs.Reading.{list_in, page_count_of, sum_in};

use crate::header::entry_at;
use crate::sound::Sound;

// The sums of so many pages, of any bytes that have their entries. It fits: 1,024 pages of less than 2^32.
pub fn page_sums(s: &[u8], pages: usize) -> u64
    requires { (pages ≤ max_pages) × (cells_start pages ≤ length s.now) }
    ensures { result ≡ sum (tabulate pages (sum_in s.now)) }
{
    let mut all = 0;
    // By page number: an entry is a sum and a link, so that of a chunk of its six bytes a part would be read.
    for p in 0..pages {
        all += bits::numbers::get::<4>(s, entry_at(p));
    }
    all
}

// The total of a sound store of so many pages: the sum of its list. Who asks has read the header, and hands the number of pages down.
pub fn total(s: Sound, pages: usize) -> u64
    requires { pages ≡ page_count_of s.bytes.now }
    ensures { result ≡ sum (list_in s.entry.bytes.now) }
{
    page_sums(s.bytes, pages)
}
