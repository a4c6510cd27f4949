// What is asked: an hour to be inserted or struck, by its page and its index there.
ghost use Rattle.std.specs.Prelude.{◌≡◌, ◌≤◌, ◌<◌, length};
ghost use Rattle.store.specs.Limits.{page_hours};

use move_counts::Edit;

// What is done to the hour, its page, its index in it, and the page behind the last that moves. That a sound store can make it, Shiftable,
// stands in the contracts and in no field: the call that carries it out writes the store's bytes.
#[derive(Clone, Copy)]
pub struct Shift {
    pub edit: Edit,
    pub first: usize,
    pub at: usize,
    pub end: usize,
}

impl Shift {
    ghost use Rattle.move_plan.specs.Code.Plan.{comes_to, near};

    // The index in page p from which its counts move.
    #[tactic(auto, unfolding(crate::specs::Code::Plan::near, lists::specs::Lists::pick))]
    pub fn near(self, p: usize) -> usize
        requires { self.at < page_hours }
        ensures { (result ≡ near self p) × (result < page_hours) }
    {
        if p == self.first { self.at } else { 0 }
    }

    // The count that comes into page p: of an insert from the page below it, of a strike from the one above.
    #[tactic(auto, unfolding(crate::specs::Code::Plan::comes_to, crate::specs::Code::Plan::comes_in, lists::specs::Lists::pick))]
    pub fn coming(self, leaving: &[u32], p: usize) -> u32
        requires { (self.first ≤ p) × (p < self.end) × (self.end ≤ length leaving.now) }
        ensures { result ≡ comes_to self leaving.now p }
    {
        match self.edit {
            Edit::Insert(v) if p == self.first => v,
            Edit::Insert(_) => leaving[p - 1],
            Edit::Strike if p + 1 < self.end => leaving[p + 1],
            Edit::Strike => 0,
        }
    }
}
