// The plan of the image of the sums.
ghost use Rattle.std.specs.Prelude.{◌≡◌, ◌+◌, ◌-◌, ◌*◌, ◌^◌, ◌≤◌, min};
ghost use Rattle.image_plan.specs.Code.Planning.{Drafted};
ghost use Rattle.image_merge.specs.Code.{Block, Merging, sums_of};

use crate::block::Pair;
use answers::refusal::Refusal;
use image_plan::{Layout, Plan, add_page, finish, start};
use reserve::power;
use tree::sums::sum_of;

// Adds the pages of block k, whose counts these are. An own loop, as image_write and freeze_plan have: what a closure for the sums would
// ask is longer than it.
fn plan_block(counts: &[u32; 256], k: usize, plan: Plan) -> Plan
    requires { Block counts.now k plan }
    ensures { (a : Block counts.now k plan) → Drafted plan.e a.zs result × (result.done ≡ min (2 ^ (8 - plan.e) * (k + 1)) result.pages) }
{
    let m = power(plan.e) as usize;
    let many = power(8 - plan.e) as usize;
    let last = (many * (k + 1)).min(plan.pages);
    let mut next = plan;
    for page in plan.done..last {
        let s = sum_of(counts, m * page - 256 * k, m);
        next = add_page(next, s);
    }
    next
}

impl Pair<'_> {
    // Makes the layout from a plan with no page yet. All sums are looked at on the way: refusal 3 if one is no count, or for the total.
    fn draft(&self, plan: Plan) -> Result<Layout, Refusal>
        requires { Drafted plan.e (sums_of self.now) plan × (plan.done ≡ 0) }
        ensures { Merging plan.e self.now result }
    {
        let mut next = plan;
        let mut counts = [0u32; 256];
        for k in 0..(plan.hours as usize).div_ceil(256) {
            self.block(k, &mut counts)?;
            next = plan_block(&counts, k, next);
        }
        finish(next)
    }

    // Finds the layout of the image of the sums, or why there is none.
    pub fn layout(&self, e: u32) -> Result<Layout, Refusal>
        requires { (2 ≤ e) × (e ≤ 8) }
        ensures { Merging e self.now result }
    {
        let plan = start(e, self.a.head.hours.max(self.b.head.hours))?;
        self.draft(plan)
    }
}
