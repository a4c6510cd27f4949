// The change of one hour's count.
#![tactic(auto)]

ghost use Rattle.std.specs.Prelude.{◌≡◌, ◌+◌, max};
ghost use Rattle.store.specs.Reading.{hours_in};
ghost use Rattle.store.specs.Code.Hours.{Asked, Changes};
ghost use Rattle.answers.specs.Store.{told_change};

use answers::refusal::Refusal;
use answers::store::Change;
use chains::rewrite::{PageChange, rewrite};
use pages::code::code_of;
use pages::entry::entry_of;
use store::cells::cells_of;
use store::header::Header;
use store::sound::Sound;
use store::spot::Spot;
use store::total::total;
use sum_table::SumTable;

// Makes the count of hour i v in a sound store, whose number of hours becomes the one given. The page's cells are worked out once for the
// old sum and once for the new one, and nothing is written before they are known to suffice.
pub fn change_hour(s: &mut [u8], i: usize, v: u32, hours: usize) -> Result<Change, Refusal>
    requires { Asked s.old i × (hours ≡ max (hours_in s.old) (i + 1)) }
    ensures { Changes s.old i v (told_change result) s.new }
{
    let head = Header::of(s);
    let spot = Spot::of(i);
    let entry = entry_of(Sound { bytes: s }, spot.page);
    let base = entry.base;
    let before = entry.sum;
    let old = entry.cells;
    let mut counts = entry.counts(&SumTable::new());
    let was = u64::from(counts[spot.index]);
    let count = u64::from(v);
    let all = total(Sound { bytes: s }, head.pages);
    if Header::MAX_TOTAL < all - was + count {
        return Err(Refusal::Total);
    }
    let after = before - was + count;
    let new = cells_of(after);
    let room = old + head.free;
    if room < new {
        return Err(Refusal::Cells);
    }
    counts[spot.index] = v;
    let code = code_of(counts, after);
    let change = PageChange {
        page: spot.page,
        old,
        new,
        sum: after,
    };
    rewrite(s, base, change, &code, hours);
    Ok(Change::between(old, new))
}
