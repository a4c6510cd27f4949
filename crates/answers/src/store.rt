// What a call on a store answers. A question answers the number asked for, or a refusal.
ghost use Rattle.std.specs.Prelude.{◌≡◌, ◌-◌};

// An accepted append, set, insert or strike: the cells that it took, and those that it gave back.
#[derive(Clone, Copy, Debug, PartialEq, Eq)]
pub struct Change {
    pub taken: u64,
    pub returned: u64,
}

impl Change {
    // What a change from the cells had to those asked for takes, and what it gives back: the rise and the fall.
    pub fn between(had: usize, asked: usize) -> Self
        ensures { (result.taken ≡ asked - had) × (result.returned ≡ had - asked) }
    {
        Self {
            taken: asked.saturating_sub(had) as u64,
            returned: had.saturating_sub(asked) as u64,
        }
    }
}
