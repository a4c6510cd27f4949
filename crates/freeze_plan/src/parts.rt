// The sums of equal parts of a page of the store: those of its tree's nodes of one height. A recursion in which h falls, one level a call.
ghost use Rattle.freeze_plan.specs.Code.Parts.{Branch, Summed};

use tree::node::root_by_shifts;

// Puts the sums of the parts of 2^e counts of a tree of 2^h counts into out, which has zeros there. The tree has this sum and stands at bit
// at; i trees of its size are before it. The whole of out is handed down with i, not its halves: the contract speaks of one list of sums at
// every height.
pub(crate) fn part_sums(code: &[u8], at: usize, h: u32, e: u32, sum: u64, i: usize, out: &mut [u64])
    requires { Branch code.now at h e sum i out.old }
    ensures { (a : Branch code.now at h e sum i out.old)
        → Summed a.xs a.from e a.k i out.old out.new }
{
    if sum == 0 {
        return;
    }
    if h == e {
        out[i] = sum;
        return;
    }
    let down = h - 1;
    let r = root_by_shifts(code, at, down, sum).unwrap();
    part_sums(code, r.first, down, e, r.left, 2 * i, out);
    part_sums(code, r.second, down, e, sum - r.left, 2 * i + 1, out);
}
