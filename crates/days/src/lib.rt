// Days with a clock change, document 02's note 4. A list names days and gives their hours, by turns; every other day has 24.
#![tactic(auto)]

ghost use Rattle.std.specs.Prelude.{true, ◌≡◌};
ghost use Rattle.days.specs.Days.{changes_fit, day_hours, day_start, is_change_day};

// Hours that a changed day can have: one less or more than 24. By one test: where the two take turns in a long list, a jump for each is
// foretold wrongly.
fn is_change(hours: u32) -> bool
    ensures { result ≡ is_change_day hours }
{
    hours.abs_diff(24) == 1
}

// The list is one of changed days: pairs, days that rise strictly, 23 or 25 hours.
pub fn fit(changes: &[u32]) -> bool
    ensures { result ≡ changes_fit changes.now }
{
    if changes.len() % 2 != 0 {
        return false;
    }
    // the first day that the next pair may name
    let mut from = 0;
    for [day, hours] in changes.as_chunks::<2>().0 {
        let day = u64::from(*day);
        if day < from || !is_change(*hours) {
            return false;
        }
        from = day + 1;
    }
    true
}

// How many hours day d has. Here and below the list fits, as fit has found: a struct that says so would serve two calls of one caller.
pub fn hours_of(changes: &[u32], d: u32) -> u64
    requires { changes_fit changes.now ≡ true }
    ensures { result ≡ day_hours changes.now d }
{
    changes
        .as_chunks::<2>()
        .0
        .iter()
        .find(|pair| pair[0] == d)
        .map_or(24, |pair| u64::from(pair[1]))
}

// The hour at which day d begins: as if no day before it were changed, then moved by each that is. In 64 bits nothing wraps.
pub fn start_of(changes: &[u32], d: u32) -> u64
    requires { changes_fit changes.now ≡ true }
    ensures { result ≡ day_start changes.now d }
{
    let mut start = 24 * u64::from(d);
    for [day, hours] in changes.as_chunks::<2>().0 {
        if *day < d {
            start = start + u64::from(*hours) - 24;
        }
    }
    start
}
