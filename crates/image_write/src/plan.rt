// The plan of a list's image.
ghost use Rattle.std.specs.Prelude.{◌≤◌};
ghost use Rattle.image_plan.specs.Code.Planning.{Drafted, Planned};

use answers::refusal::Refusal;
use image_plan::{Layout, Plan, add_page, finish, start};
use tree::sums::sum_of;

// Adds the pages that a plan of counts lacks. book_in, image_merge and freeze_plan have this loop over their own: what a closure for the
// sums would ask is longer than it. It counts pages and takes no chunks of the counts, for it starts where the plan stands.
fn add_pages(counts: &[u32], e: u32, plan: Plan) -> Plan
    requires { Drafted e counts.now plan }
    ensures { Drafted e counts.now result × (result.pages ≤ result.done) }
{
    let m = reserve::power(e) as usize;
    let mut next = plan;
    for page in plan.done..plan.pages {
        let s = sum_of(counts, m * page, m);
        next = add_page(next, s);
    }
    next
}

// The layout of the image of counts, or why they have none.
pub(crate) fn layout_of(counts: &[u32], e: u32) -> Result<Layout, Refusal>
    ensures { Planned e counts.now result }
{
    let plan = start(e, counts.len() as u64)?;
    finish(add_pages(counts, e, plan))
}
