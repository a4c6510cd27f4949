// The live calls on a store's bytes. Each turns a store that is not sound down first, and then answers as the store's list does.
// `sound(s)?` stands in all nine: a function that takes the call as a closure would make each longer.
#![tactic(auto)]

ghost use Rattle.store.specs.Plain.{Append, Count, Day, Free, Insert, Reach, Reading, Set, Strike};
ghost use Rattle.store.specs.Call.{Called};
ghost use Rattle.store.specs.Reading.{list_in};
ghost use Rattle.coin_cost.specs.Cost.{TakesAtMost, cells_for, gain};
ghost use Rattle.answers.specs.Store.{told_change, told_number};

use answers::refusal::Refusal;
use answers::store::Change;
use live_move::edit;
use soundness::sound;

// Appends the count of the next hour. For v coins it takes at most ceil(v / 40) cells, or eight if that is less.
pub fn append(s: &mut [u8], v: u32) -> Result<Change, Refusal>
    ensures called { Called (Append v) s.old (told_change result) s.new }
    ensures takes_at_most { TakesAtMost (cells_for v) (told_change result) }
{
    sound(s)?;
    live_change::append(s, v)
}

// Sets the count of hour i, which is logged. What it takes goes by the coins that the hour gains, as in append.
pub fn set(s: &mut [u8], i: u32, v: u32) -> Result<Change, Refusal>
    ensures called { Called (Set i v) s.old (told_change result) s.new }
    ensures takes_at_most { TakesAtMost (cells_for (gain (list_in s.old) i v)) (told_change result) }
{
    sound(s)?;
    live_change::set(s, i, v)
}

// Inserts v before hour i.
pub fn insert(s: &mut [u8], i: u32, v: u32) -> Result<Change, Refusal>
    ensures { Called (Insert i v) s.old (told_change result) s.new }
{
    sound(s)?;
    edit::insert(s, i, v)
}

// Strikes hour i.
pub fn strike(s: &mut [u8], i: u32) -> Result<Change, Refusal>
    ensures { Called (Strike i) s.old (told_change result) s.new }
{
    sound(s)?;
    edit::strike(s, i)
}

// The count of hour i.
pub fn count(s: &[u8], i: u32) -> Result<u64, Refusal>
    ensures { Called (Count i) s.now (told_number result) s.now }
{
    live_query::count(sound(s)?, i)
}

// The reading at i: the sum of the counts before hour i.
pub fn reading(s: &[u8], i: u32) -> Result<u64, Refusal>
    ensures { Called (Reading i) s.now (told_number result) s.now }
{
    live_query::reading(sound(s)?, i)
}

// The smallest i whose reading is p or more.
pub fn reach(s: &[u8], p: u32) -> Result<u64, Refusal>
    ensures { Called (Reach p) s.now (told_number result) s.now }
{
    live_search::reach(sound(s)?, p)
}

// The sum of the counts of day d, where a list gives days their hours that have not 24.
pub fn day(s: &[u8], d: u32, changes: &[u32]) -> Result<u64, Refusal>
    ensures { Called (Day d changes.now) s.now (told_number result) s.now }
{
    live_day::day(sound(s)?, d, changes)
}

// How many cells are free.
pub fn free(s: &[u8]) -> Result<u64, Refusal>
    ensures { Called Free s.now (told_number result) s.now }
{
    live_query::free(sound(s)?)
}
