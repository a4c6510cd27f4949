// Questions to a sound store: a count, a reading, the free cells.
#![tactic(auto)]

ghost use Rattle.std.specs.Prelude.{◌≡◌, ◌≤◌, ◌<◌, get_or};
ghost use Rattle.lists.specs.Lists.{reading as reading_at};
ghost use Rattle.store.specs.Plain.{Count, Free, Reading};
ghost use Rattle.store.specs.Reading.{hours_in, list_in};
ghost use Rattle.store.specs.Call.{Called};
ghost use Rattle.answers.specs.Store.{told_number};

use answers::refusal::Refusal;
use live_page::{count_of, sum_through};
use pages::entry::entry_of;
use pages::sums::before;
use store::header::Header;
use store::sound::Sound;
use store::spot::Spot;

// Count i of the list.
fn count_in(s: Sound, i: usize) -> u64
    requires { i < hours_in s.bytes.now }
    ensures { result ≡ get_or (list_in s.entry.bytes.now) i 0 }
{
    let spot = Spot::of(i);
    let page = entry_of(s, spot.page);
    count_of(&page, spot.index)
}

// The sum of the counts before hour i: of the pages before its own, and of the counts before it in its page.
pub fn reading_in(s: Sound, i: usize) -> u64
    requires { i ≤ hours_in s.bytes.now }
    ensures { result ≡ reading_at (list_in s.entry.bytes.now) i }
{
    let spot = Spot::of(i);
    let all = before(s, spot.page);
    if spot.index == 0 {
        return all;
    }
    let page = entry_of(s, spot.page);
    sum_through(&page, spot.index - 1, all)
}

// The count of hour i, which is logged.
pub fn count(s: Sound, i: u32) -> Result<u64, Refusal>
    ensures { Called (Count i) s.entry.bytes.now (told_number result) s.entry.bytes.now }
{
    let head = Header::of(s.bytes);
    if head.hours <= i as usize {
        return Err(Refusal::Hour);
    }
    Ok(count_in(s, i as usize))
}

// The reading at i, an hour that is logged or the next to be logged.
pub fn reading(s: Sound, i: u32) -> Result<u64, Refusal>
    ensures { Called (Reading i) s.entry.bytes.now (told_number result) s.entry.bytes.now }
{
    let head = Header::of(s.bytes);
    if head.hours < i as usize {
        return Err(Refusal::Hour);
    }
    Ok(reading_in(s, i as usize))
}

// How many cells are free, as the header says.
pub fn free(s: Sound) -> Result<u64, Refusal>
    ensures { Called Free s.entry.bytes.now (told_number result) s.entry.bytes.now }
{
    let head = Header::of(s.bytes);
    Ok(head.free as u64)
}
