// The 64 counts of a page when the hours behind one move by one place: a count comes in, and one leaves.
#![tactic(auto)]

ghost use Rattle.std.specs.Prelude.{◌≡◌, ◌<◌};
ghost use Rattle.store.specs.Limits.{page_hours};
ghost use Rattle.move_counts.specs.Code.Turned.{leaving_index, pulled, pushed, turned};

use std::mem::swap;
use store::header::Header;

// The last index of a page.
const LAST: usize = Header::HOURS - 1;

// What is done to an hour: a count is inserted before it, or it is struck. The count is that of the hour, and says what comes into its own
// page alone; turn and leaves_at do not read it. Kept beside the edit, it would be a number that a strike has and never reads.
#[derive(Clone, Copy)]
pub enum Edit {
    Insert(u32),
    Strike,
}

// v comes in before index j, and the last count leaves.
// No rotate_right, nor rotate_left in pull: they take memmove, and the library asks a board for memcpy and memset alone
// (include/hourlog.h).
fn push(counts: &mut [u32; Header::HOURS], j: usize, v: u32)
    requires { j < page_hours }
    ensures { counts.new ≡ pushed counts.old j v }
{
    let mut next = v;
    for count in &mut counts[j..] {
        swap(count, &mut next);
    }
}

// Count j leaves, and v comes in at the end. By an index: a copy_within is a memmove, too.
fn pull(counts: &mut [u32; Header::HOURS], j: usize, v: u32)
    requires { j < page_hours }
    ensures { counts.new ≡ pulled counts.old j v }
{
    for k in j..LAST {
        counts[k] = counts[k + 1];
    }
    counts[LAST] = v;
}

// Makes room for v where an hour is inserted, or closes the gap of one that is struck.
#[tactic(auto, unfolding(crate::specs::Code::Turned::turned))]
pub fn turn(counts: &mut [u32; Header::HOURS], edit: Edit, j: usize, v: u32)
    requires { j < page_hours }
    ensures { counts.new ≡ turned edit counts.old j v }
{
    match edit {
        Edit::Insert(_) => push(counts, j, v),
        Edit::Strike => pull(counts, j, v),
    }
}

// The index of the count that leaves.
#[tactic(auto, unfolding(crate::specs::Code::Turned::leaving_index))]
pub fn leaves_at(edit: Edit, j: usize) -> usize
    requires { j < page_hours }
    ensures { (result ≡ leaving_index edit j) × (result < page_hours) }
{
    match edit {
        Edit::Insert(_) => LAST,
        Edit::Strike => j,
    }
}
