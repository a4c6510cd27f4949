// The first counts of a page, with as many coins as are wanted.
ghost use Rattle.std.specs.Prelude.{◌≤◌};
ghost use Rattle.lists.specs.Lists.{sum};
ghost use Rattle.sum_marks.specs.Code.Marks.{Marked};
ghost use Rattle.sum_marks.specs.Code.Prefix.{PrefixOf, Tried};

use crate::marks::Marks;

// How many of a page's first counts, and their sum.
#[derive(Clone, Copy)]
pub struct Prefix {
    pub hours: usize,
    pub sum: u64,
}

// The fewest of the first counts that have as many coins as are wanted, or more, or all of them: from as few as are known to fall short.
fn reach(counts: &[u32], from: Prefix, want: u64) -> Prefix
    requires { (sum counts.now ≤ 1099511627775) × PrefixOf counts.now want from }
    ensures { Tried counts.now want result }
{
    let mut sum = from.sum;
    // By the index, for it is the answer.
    for hours in from.hours..counts.len() {
        if want <= sum {
            return Prefix { hours, sum };
        }
        sum += u64::from(counts[hours]);
    }
    Prefix {
        hours: counts.len(),
        sum,
    }
}

impl Marks {
    // Looks for the first of the counts with just as many coins as are wanted: only where there is a mark.
    pub fn attempt(&self, counts: &[u32], stamp: u8, from: Prefix, want: u64) -> Prefix
        requires so_far { (sum counts.now ≤ 1099511627775) × PrefixOf counts.now want from }
        requires marked { Marked counts.now stamp self.now.stamps }
        ensures { Tried counts.now want result }
    {
        if self.carries(want, stamp) {
            reach(counts, from, want)
        } else {
            from
        }
    }
}
