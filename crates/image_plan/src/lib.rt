// What an image will be, from the sums of its pages: a caller adds these to a plan, which gives the layout or a refusal before a byte is
// written. `image_put` then takes the counts of one page after another. As methods of Plan and Layout these functions would save no fact.
#![tactic(auto)]

ghost use Rattle.std.specs.Prelude.{◌≡◌, ◌+◌, length};
ghost use Rattle.image.specs.Image.{image};
ghost use Rattle.image_plan.specs.Code.Planning.{Awaits, Begun, Drafted, Fitting, Laying, Planned, Whole};

use answers::refusal::Refusal;
use image::head::{Edition, Head, pages_of, size_of, table_at};

// A plan of an image of pages of 2^e counts: how many counts and pages it has; of the first done pages the total, and the bits of the
// trees.
#[derive(Clone, Copy)]
pub struct Plan {
    pub e: u32,
    pub hours: u64,
    pub pages: usize,
    pub done: usize,
    pub total: u64,
    pub trees: usize,
}

// The plan of an image of so many counts: Refusal::PageSize, Refusal::List.
pub fn start(e: u32, hours: u64) -> Result<Plan, Refusal>
    ensures { Begun e hours result }
{
    if e < 2 || 8 < e {
        return Err(Refusal::PageSize);
    }
    if Head::MAX_HOURS < hours {
        return Err(Refusal::List);
    }
    Ok(Plan {
        e,
        hours,
        pages: pages_of(e, hours) as usize,
        done: 0,
        total: 0,
        trees: 0,
    })
}

// The plan with one page more, whose counts have this sum.
pub fn add_page(plan: Plan, sum: u64) -> Plan
    requires { Awaits plan sum }
    ensures { (result.done ≡ plan.done + 1) × ((a : Awaits plan sum) → Drafted a.e a.xs result) }
{
    Plan {
        done: plan.done + 1,
        total: plan.total + sum,
        trees: plan.trees + reserve::reserve_of(plan.e, sum),
        ..plan
    }
}

// An image of pages of 2^e counts: how many counts and pages it has, the total, at which byte the table of start bits stands, where the
// code starts among the bits of all the bytes, and its bits. A Head has these fields, too, but its pages and bits are u64, as
// what is read of an image is, and here both are indices: with one type, each use on one side would be cast.
#[derive(Clone, Copy)]
pub struct Layout {
    pub e: u32,
    pub hours: u64,
    pub pages: usize,
    pub total: u64,
    pub table: usize,
    pub code: usize,
    pub bits: usize,
}

// The layout of a plan that has all its pages: Refusal::Total. A root's width and the edition are known only now.
pub fn finish(plan: Plan) -> Result<Layout, Refusal>
    requires { Whole plan }
    ensures { (a : Whole plan) → Planned a.e a.xs result }
{
    if Head::MAX_TOTAL < plan.total {
        return Err(Refusal::Total);
    }
    let pages = plan.pages;
    let table = Edition::for_total(plan.total).header_size();
    let code = 8 * table_at(table, pages as u64);
    let bits = pages * (reserve::digits_of(plan.total) as usize) + plan.trees;
    Ok(Layout {
        e: plan.e,
        hours: plan.hours,
        pages,
        total: plan.total,
        table,
        code,
        bits,
    })
}

// How many bytes the image has.
pub fn size(r: Layout) -> u64
    requires { Laying r }
    ensures { (a : Laying r) → result ≡ length (image r.e a.xs) }
{
    size_of(r.table, r.e, r.hours, r.bits as u64)
}

// How many bytes the image has, if a buffer of so many has room for it: Refusal::Buffer.
pub fn room(r: Layout, buffer: usize) -> Result<u64, Refusal>
    requires { Laying r }
    ensures { (a : Laying r) → Fitting (length (image r.e a.xs)) buffer result }
{
    let n = size(r);
    if (buffer as u64) < n {
        return Err(Refusal::Buffer);
    }
    Ok(n)
}
