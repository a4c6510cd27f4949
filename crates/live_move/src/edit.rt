// Insert and strike, on a sound store.
ghost use Rattle.std.specs.Prelude.{true, ◌≡◌};
ghost use Rattle.answers.specs.Store.{told_change};
ghost use Rattle.store.specs.Plain.{Insert, Strike};
ghost use Rattle.store.specs.Sound.{sound};
ghost use Rattle.store.specs.Call.{Called};

use crate::carry::carry_out;
use answers::refusal::Refusal;
use answers::store::Change;
use move_counts::Edit;
use move_plan::shift::Shift;
use store::header::Header;
use store::sound::Sound;
use store::spot::Spot;
use store::total::total;

// Inserts v before hour i.
pub fn insert(s: &mut [u8], i: u32, v: u32) -> Result<Change, Refusal>
    requires { sound s.old ≡ true }
    ensures { Called (Insert i v) s.old (told_change result) s.new }
{
    let head = Header::of(s);
    let hour = i as usize;
    let hours = head.hours;
    if hours < hour {
        return Err(Refusal::Hour);
    }
    // Tests for Full and Total as live_change::append does, which says why no function serves both.
    if Header::HOURS * head.pages <= hours {
        return Err(Refusal::Full);
    }
    if Header::MAX_TOTAL < total(Sound { bytes: s }, head.pages) + u64::from(v) {
        return Err(Refusal::Total);
    }
    let spot = Spot::of(hour);
    let shift = Shift {
        edit: Edit::Insert(v),
        first: spot.page,
        at: spot.index,
        end: hours / Header::HOURS + 1,
    };
    carry_out(s, shift, hours + 1)
}

// Strikes hour i.
pub fn strike(s: &mut [u8], i: u32) -> Result<Change, Refusal>
    requires { sound s.old ≡ true }
    ensures { Called (Strike i) s.old (told_change result) s.new }
{
    let head = Header::of(s);
    let hour = i as usize;
    let hours = head.hours;
    if hours <= hour {
        return Err(Refusal::Hour);
    }
    let spot = Spot::of(hour);
    let shift = Shift {
        edit: Edit::Strike,
        first: spot.page,
        at: spot.index,
        end: (hours - 1) / Header::HOURS + 1,
    };
    carry_out(s, shift, hours - 1)
}
