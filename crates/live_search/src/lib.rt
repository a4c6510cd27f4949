// The prefix-sum search in a sound store: first over the page sums, then in the page's tree.
#![tactic(auto)]

ghost use Rattle.std.specs.Prelude.{◌≡◌, ◌≤◌, ◌<◌};
ghost use Rattle.lists.specs.Lists.{reached, sum};
ghost use Rattle.store.specs.Plain.{Reach};
ghost use Rattle.store.specs.Reading.{list_in, page_count_of};
ghost use Rattle.store.specs.Call.{Called};
ghost use Rattle.answers.specs.Store.{told_number};
ghost use Rattle.live_search.specs.Code.Search.{Spots};

use answers::refusal::Refusal;
use bits::numbers::get;
use live_page::search_page;
use pages::entry::entry_of;
use store::header::{Header, entry_at};
use store::sound::Sound;
use store::total::total;

// A page, and what of a figure is left when the pages before it are passed.
#[derive(Clone, Copy)]
struct Stop {
    page: usize,
    rest: u64,
}

// The page in which q is reached, and what is left of q there, which is 1 or more as q is.
fn page_of(s: Sound, q: u64) -> Stop
    requires { (1 ≤ q) × (q ≤ sum (list_in s.bytes.now)) }
    ensures { Spots (list_in s.entry.bytes.now) (page_count_of s.entry.bytes.now) q result.page result.rest }
{
    let mut page = 0;
    let mut before = 0;
    let mut all = get::<4>(s.bytes, entry_at(0));
    // Stops in the page in which q is reached, which there is: behind a `for` there would stand a case that never comes.
    while before + all < q {
        before += all;
        page += 1;
        all = get::<4>(s.bytes, entry_at(page));
    }
    Stop {
        page,
        rest: q - before,
    }
}

// The least index whose prefix sum is q or more.
fn reach_in(s: Sound, q: u64) -> u64
    requires { (q ≤ sum (list_in s.bytes.now)) }
    ensures { result ≡ reached q (list_in s.entry.bytes.now) }
{
    if q == 0 {
        return 0;
    }
    let stop = page_of(s, q);
    let first = (Header::HOURS * stop.page) as u64;
    search_page(&entry_of(s, stop.page), stop.rest, first)
}

// The least index whose reading is q or more, which the total is not below.
pub fn reach(s: Sound, q: u32) -> Result<u64, Refusal>
    ensures { Called (Reach q) s.entry.bytes.now (told_number result) s.entry.bytes.now }
{
    let q = u64::from(q);
    if total(s, Header::of(s.bytes).pages) < q {
        return Err(Refusal::Figure);
    }
    Ok(reach_in(s, q))
}
