// What the calls on an image answer. Each answers it or a refusal; a call that asks for one number answers that number.

// What check answers: N and S.
#[derive(Clone, Copy, Debug, PartialEq, Eq)]
pub struct Contents {
    pub hours: u64,
    pub total: u64,
}

// The busiest stretch: its first hour and its sum.
#[derive(Clone, Copy, Debug, PartialEq, Eq)]
pub struct Stretch {
    pub first: u64,
    pub total: u64,
}

// The hours of a bag: the first hour of the run that has its sum, and how many hours the run has.
#[derive(Clone, Copy, Debug, PartialEq, Eq)]
pub struct Run {
    pub first: u64,
    pub hours: u64,
}
