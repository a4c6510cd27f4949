// The live store, for C.
ghost use Rattle.std.specs.Prelude.{[], ◌∷◌};
ghost use Rattle.store.specs.Plain.{Append, Set, Insert, Strike, Count, Reading, Reach, Day, Free};
ghost use Rattle.store.specs.Reading.{list_in};
ghost use Rattle.coin_cost.specs.Cost.{gain};
ghost use Rattle.hourlog_c.specs.Public.{Fresh, Live, Repair};
ghost use Rattle.hourlog_c.specs.Export.{Answers, Costs};

use words::{of_change, of_done, of_number};

pub fn hourlog_fresh(store: &mut [u8], pages: u32, cells: u32) -> u64
    ensures { Answers (Fresh store.old pages cells) result (store.new ∷ []) }
{
    of_done(fresh::fresh(store, pages, cells))
}

pub fn hourlog_append(store: &mut [u8], count: u32) -> u64
    ensures answers { Answers (Live (Append count) store.old) result (store.new ∷ []) }
    ensures costs { Costs count result }
{
    of_change(live::append(store, count))
}

pub fn hourlog_set(store: &mut [u8], hour: u32, count: u32) -> u64
    ensures answers { Answers (Live (Set hour count) store.old) result (store.new ∷ []) }
    ensures costs { Costs (gain (list_in store.old) hour count) result }
{
    of_change(live::set(store, hour, count))
}

pub fn hourlog_insert(store: &mut [u8], hour: u32, count: u32) -> u64
    ensures { Answers (Live (Insert hour count) store.old) result (store.new ∷ []) }
{
    of_change(live::insert(store, hour, count))
}

pub fn hourlog_strike(store: &mut [u8], hour: u32) -> u64
    ensures { Answers (Live (Strike hour) store.old) result (store.new ∷ []) }
{
    of_change(live::strike(store, hour))
}

pub fn hourlog_count(store: &[u8], hour: u32) -> u64
    ensures { Answers (Live (Count hour) store.now) result (store.now ∷ []) }
{
    of_number(live::count(store, hour))
}

pub fn hourlog_reading(store: &[u8], hour: u32) -> u64
    ensures { Answers (Live (Reading hour) store.now) result (store.now ∷ []) }
{
    of_number(live::reading(store, hour))
}

pub fn hourlog_reach(store: &[u8], figure: u32) -> u64
    ensures { Answers (Live (Reach figure) store.now) result (store.now ∷ []) }
{
    of_number(live::reach(store, figure))
}

pub fn hourlog_day(store: &[u8], day: u32, changes: &[u32]) -> u64
    ensures { Answers (Live (Day day changes.now) store.now) result (store.now ∷ changes.now ∷ []) }
{
    of_number(live::day(store, day, changes))
}

pub fn hourlog_free(store: &[u8]) -> u64
    ensures { Answers (Live Free store.now) result (store.now ∷ []) }
{
    of_number(live::free(store))
}

pub fn hourlog_repair(store: &mut [u8], lost: &mut [u32]) -> u64
    ensures { Answers (Repair store.old lost.old) result (store.new ∷ lost.new ∷ []) }
{
    of_number(live_repair::repair(store, lost))
}
