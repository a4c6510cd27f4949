// Where an hour stands: its page, and its index in the page.
ghost use Rattle.std.specs.Prelude.{◌≡◌, ◌/◌, ◌%◌, ◌<◌};
ghost use Rattle.store.specs.Limits.{page_hours};

use crate::header::Header;

#[derive(Clone, Copy)]
pub struct Spot {
    pub page: usize,
    pub index: usize,
    ghost inside: { index < page_hours },
}

impl Spot {
    // The spot of an hour.
    pub fn of(hour: usize) -> Self
        ensures { (result.page ≡ hour / page_hours) × (result.index ≡ hour % page_hours) }
    {
        Self {
            page: hour / Header::HOURS,
            index: hour % Header::HOURS,
        }
    }
}
