// Append and set, on a sound store.
#![tactic(auto)]

ghost use Rattle.std.specs.Prelude.{true, ◌≡◌};
ghost use Rattle.store.specs.Plain.{Append, Set};
ghost use Rattle.store.specs.Sound.{sound};
ghost use Rattle.store.specs.Call.{Called};
ghost use Rattle.answers.specs.Store.{told_change};

use answers::refusal::Refusal;
use answers::store::Change;
use live_hour::change_hour;
use store::header::Header;
use store::sound::Sound;
use store::total::total;

// Appends v to the list of a sound store.
pub fn append(s: &mut [u8], v: u32) -> Result<Change, Refusal>
    requires { sound s.old ≡ true }
    ensures { Called (Append v) s.old (told_change result) s.new }
{
    let head = Header::of(s);
    if Header::HOURS * head.pages <= head.hours {
        return Err(Refusal::Full);
    }
    // The count that is there is 0: the total is known before the page is read. live_move::edit::insert tests the same: a function for both
    // would have to promise what either answer means, in more lines than the tests have.
    if Header::MAX_TOTAL < total(Sound { bytes: s }, head.pages) + u64::from(v) {
        return Err(Refusal::Total);
    }
    change_hour(s, head.hours, v, head.hours + 1)
}

// Makes count i of a sound store's list v.
pub fn set(s: &mut [u8], i: u32, v: u32) -> Result<Change, Refusal>
    requires { sound s.old ≡ true }
    ensures { Called (Set i v) s.old (told_change result) s.new }
{
    let head = Header::of(s);
    if head.hours <= i as usize {
        return Err(Refusal::Hour);
    }
    change_hour(s, i as usize, v, head.hours)
}
