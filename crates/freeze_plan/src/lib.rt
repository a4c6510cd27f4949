// The plan of the image of a sound store's list. No count is decoded for it. Where the image's pages are smaller than the store's, their
// sums stand in the code of each page of the store. A page of another image ends with a page of the store, or behind the last: its sum is
// what the reading at its end is above that at its start, and the latter is the total of the pages that the plan has.
#![tactic(auto)]

mod parts;

ghost use Rattle.std.specs.Prelude.{◌≡◌, ◌+◌, ◌*◌, ◌^◌, ◌≤◌, ◌<◌};
ghost use Rattle.lists.specs.Lists.{reading};
ghost use Rattle.store.specs.Reading.{list_in, page_count_of};
ghost use Rattle.image_plan.specs.Code.Planning.{Drafted, Planned};
ghost use Rattle.freeze_plan.specs.Code.Steps.{Ending, Within};

use answers::refusal::Refusal;
use image_plan::{Layout, Plan, add_page, finish, start};
use pages::entry::{Entry, entry_of};
use parts::part_sums;
use store::header::Header;
use store::sound::Sound;

// So many pages of an image make one of the store at most, for they have 4 counts or more.
const MAX_PARTS: usize = Header::HOURS / 4;

// Adds the pages up to page number end of the image, which are smaller than the store's and lie in page own of it.
fn add_parts(own: &Entry, end: usize, plan: Plan) -> Plan
    requires { Within own.now.bytes.now own.now.page end plan × (2 ^ plan.e < 64) }
    ensures { Drafted plan.e (list_in own.now.bytes.now) result × (end ≤ result.done) }
{
    let e = plan.e;
    let many = reserve::power(Header::HEIGHT - e) as usize;
    let code = own.code();
    let mut sums = [0u64; MAX_PARTS];
    part_sums(&code, 0, Header::HEIGHT, e, own.sum, 0, &mut sums);
    let mut next = plan;
    // By page number: as a slice of the sums it would ask that the plan has no page behind end, which no contract says.
    for page in plan.done..end {
        next = add_page(next, sums[page - many * own.page]);
    }
    next
}

// Adds the page before page number end of the image, if the plan lacks it; all is the reading at its end.
fn add_ending(all: u64, end: usize, plan: Plan) -> Plan
    requires { Ending all end plan }
    ensures { (a : Ending all end plan) → Drafted a.e a.xs result × (end ≤ result.done) }
{
    if plan.done < end {
        return add_page(plan, all - plan.total);
    }
    plan
}

// Adds the pages up to page number end of the image, which end in page own of the store; all is the reading at the end of that page.
fn add_within(own: &Entry, all: u64, end: usize, plan: Plan) -> Plan
    requires within { Within own.now.bytes.now own.now.page end plan }
    requires reading { all ≡ reading (list_in own.now.bytes.now) (64 * (own.now.page + 1)) }
    ensures { Drafted plan.e (list_in own.now.bytes.now) result × (end ≤ result.done) }
{
    let m = reserve::power(plan.e) as usize;
    if m < Header::HOURS {
        return add_parts(own, end, plan);
    }
    add_ending(all, end, plan)
}

// Adds all pages to a plan that has none. An image's page may end behind the last page of the store.
fn add_pages(s: Sound, pages: usize, plan: Plan) -> Plan
    requires { (pages ≡ page_count_of s.bytes.now) × Drafted plan.e (list_in s.bytes.now) plan }
    ensures { Drafted plan.e (list_in s.entry.bytes.now) result × (result.pages ≤ result.done) }
{
    let m = reserve::power(plan.e) as usize;
    let mut next = plan;
    let mut all = 0;
    for p in 0..pages {
        let own = entry_of(s, p);
        all += own.sum;
        let end = (Header::HOURS * (p + 1) / m).min(plan.pages);
        next = add_within(&own, all, end, next);
    }
    add_ending(all, plan.pages, next)
}

// The layout of the image of a sound store's list, or why it has none.
pub fn layout_of(s: Sound, e: u32) -> Result<Layout, Refusal>
    ensures { Planned e (list_in s.entry.bytes.now) result }
{
    let h = Header::of(s.bytes);
    let plan = start(e, h.hours as u64)?;
    finish(add_pages(s, h.pages, plan))
}
