// The day's sum of a sound store, answered as its list does.
#![tactic(auto)]

ghost use Rattle.store.specs.Plain.{Day};
ghost use Rattle.store.specs.Call.{Called};
ghost use Rattle.answers.specs.Store.{told_number};

use answers::refusal::Refusal;
use live_query::reading_in;
use store::header::Header;
use store::sound::Sound;

// The sum of the counts of day d, where changes gives days their hours that have not 24. Starts and ends are in 64 bits, where nothing
// wraps: an end that is logged is an index.
pub fn day(s: Sound, d: u32, changes: &[u32]) -> Result<u64, Refusal>
    ensures { Called (Day d changes.now) s.entry.bytes.now (told_number result) s.entry.bytes.now }
{
    if !days::fit(changes) {
        return Err(Refusal::Changes);
    }
    let head = Header::of(s.bytes);
    let start = days::start_of(changes, d);
    let end = start + days::hours_of(changes, d);
    if (head.hours as u64) < end {
        return Err(Refusal::Hour);
    }
    Ok(reading_in(s, end as usize) - reading_in(s, start as usize))
}
