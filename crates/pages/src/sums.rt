// Sums of whole pages, from their entries.
ghost use Rattle.std.specs.Prelude.{◌≡◌, ◌*◌, ◌≤◌};
ghost use Rattle.lists.specs.Lists.{reading};
ghost use Rattle.store.specs.Limits.{page_hours};
ghost use Rattle.store.specs.Reading.{list_in, page_count_of};

use store::sound::Sound;
use store::total::page_sums;

// The sum of the counts in the pages below p of a sound store: the reading at hour 64p.
pub fn before(s: Sound, p: usize) -> u64
    requires { p ≤ page_count_of s.bytes.now }
    ensures { result ≡ reading (list_in s.entry.bytes.now) (page_hours * p) }
{
    page_sums(s.bytes, p)
}
