// Marks of a page's sums: the sum of its first hours, of one, two or more, has its place in a table, and there the page's stamp. What has
// no mark is none of these sums; what has one may be another with the same place, or one of a page long gone.
ghost use Rattle.std.specs.Prelude.{false, ◌≡◌, ◌≤◌};
ghost use Rattle.lists.specs.Lists.{sum};
ghost use Rattle.sum_marks.specs.Code.Marks.{Marked, Unmarked};

// How many places a table of marks has.
pub const MARKS_LENGTH: u64 = 2048;

// A table of marks: at each place the stamp that was put there last. Each call brings the stamp: it is the page's, and not the table's,
// which outlives it.
#[derive(Drop)]
pub struct Marks {
    pub stamps: [u8; MARKS_LENGTH as usize],
}

impl Marks {
    // Marks the sums of the counts, none of which overflows: this is asked here and in prefix, for a slice of counts has no type that says
    // it.
    pub fn mark(&mut self, counts: &[u32], stamp: u8)
        requires { sum counts.now ≤ 1099511627775 }
        ensures { Marked counts.now stamp self.new.stamps }
    {
        let mut sum = 0;
        for count in counts {
            sum += u64::from(*count);
            self.stamps[(sum % MARKS_LENGTH) as usize] = stamp;
        }
    }

    // Whether there is a mark at the place of a sum.
    pub fn carries(&self, sum: u64, stamp: u8) -> bool
        ensures { result ≡ false → Unmarked self.now.stamps stamp sum }
    {
        self.stamps[(sum % MARKS_LENGTH) as usize] == stamp
    }

    // Whether there is one at the place of one of four sums. No jump: all four are looked up. Four
    // parameters: the caller has them one by one.
    pub fn any_carries(&self, a: u64, b: u64, c: u64, d: u64, stamp: u8) -> bool
        ensures { result ≡ false → Unmarked self.now.stamps stamp a × Unmarked self.now.stamps stamp b
            × Unmarked self.now.stamps stamp c × Unmarked self.now.stamps stamp d }
    {
        (self.carries(a, stamp) | self.carries(b, stamp))
            | (self.carries(c, stamp) | self.carries(d, stamp))
    }
}
