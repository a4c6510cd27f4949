// The live store, for C.
ghost use Rattle.std.specs.Prelude.{[], ◌∷◌};
ghost use Rattle.store.specs.Plain.{Append, Set, Insert, Strike, Count, Reading, Reach, Day, Free};
ghost use Rattle.store.specs.Reading.{list_in};
ghost use Rattle.coin_cost.specs.Cost.{gain};
ghost use Rattle.hourlog_c.specs.Public.{Fresh, Live, Repair};
ghost use Rattle.hourlog_c.specs.Export.{Answers, Costs};

use hourlog_c::store_calls;

#[unsafe(no_mangle)]
pub extern "C" fn hourlog_fresh(store: &mut [u8], pages: u32, cells: u32) -> u64
    ensures { Answers (Fresh store.old pages cells) result (store.new ∷ []) }
{
    store_calls::hourlog_fresh(store, pages, cells)
}

#[unsafe(no_mangle)]
pub extern "C" fn hourlog_append(store: &mut [u8], count: u32) -> u64
    ensures answers { Answers (Live (Append count) store.old) result (store.new ∷ []) }
    ensures costs { Costs count result }
{
    store_calls::hourlog_append(store, count)
}

#[unsafe(no_mangle)]
pub extern "C" fn hourlog_set(store: &mut [u8], hour: u32, count: u32) -> u64
    ensures answers { Answers (Live (Set hour count) store.old) result (store.new ∷ []) }
    ensures costs { Costs (gain (list_in store.old) hour count) result }
{
    store_calls::hourlog_set(store, hour, count)
}

#[unsafe(no_mangle)]
pub extern "C" fn hourlog_insert(store: &mut [u8], hour: u32, count: u32) -> u64
    ensures { Answers (Live (Insert hour count) store.old) result (store.new ∷ []) }
{
    store_calls::hourlog_insert(store, hour, count)
}

#[unsafe(no_mangle)]
pub extern "C" fn hourlog_strike(store: &mut [u8], hour: u32) -> u64
    ensures { Answers (Live (Strike hour) store.old) result (store.new ∷ []) }
{
    store_calls::hourlog_strike(store, hour)
}

#[unsafe(no_mangle)]
pub extern "C" fn hourlog_count(store: &[u8], hour: u32) -> u64
    ensures { Answers (Live (Count hour) store.now) result (store.now ∷ []) }
{
    store_calls::hourlog_count(store, hour)
}

#[unsafe(no_mangle)]
pub extern "C" fn hourlog_reading(store: &[u8], hour: u32) -> u64
    ensures { Answers (Live (Reading hour) store.now) result (store.now ∷ []) }
{
    store_calls::hourlog_reading(store, hour)
}

#[unsafe(no_mangle)]
pub extern "C" fn hourlog_reach(store: &[u8], figure: u32) -> u64
    ensures { Answers (Live (Reach figure) store.now) result (store.now ∷ []) }
{
    store_calls::hourlog_reach(store, figure)
}

#[unsafe(no_mangle)]
pub extern "C" fn hourlog_day(store: &[u8], day: u32, changes: &[u32]) -> u64
    ensures { Answers (Live (Day day changes.now) store.now) result (store.now ∷ changes.now ∷ []) }
{
    store_calls::hourlog_day(store, day, changes)
}

#[unsafe(no_mangle)]
pub extern "C" fn hourlog_free(store: &[u8]) -> u64
    ensures { Answers (Live Free store.now) result (store.now ∷ []) }
{
    store_calls::hourlog_free(store)
}

#[unsafe(no_mangle)]
pub extern "C" fn hourlog_repair(store: &mut [u8], lost: &mut [u32]) -> u64
    ensures { Answers (Repair store.old lost.old) result (store.new ∷ lost.new ∷ []) }
{
    store_calls::hourlog_repair(store, lost)
}
