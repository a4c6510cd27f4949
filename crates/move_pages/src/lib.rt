// The pages that move, in two passes, the lowest page first: in the first pass those that do not grow, so that every page that shrinks has
// given its cells back before a page of the late pass takes some.
#![tactic(auto)]

ghost use Rattle.std.specs.Prelude.{◌≡◌, ◌+◌, ◌≤◌, ◌<◌, length};
ghost use Rattle.store.specs.Reading.{list_in};
ghost use Rattle.move_plan.specs.Code.Plan.{shifted};
ghost use Rattle.move_pages.specs.Code.Pass.{Enough, PassTo, Settles, Some, pages_in};

use chains::numbers::put;
use move_page::{PageMove, move_page};
use move_plan::shift::Shift;
use sum_table::SumTable;

// What is worked out before anything is written: where the cells start, the shift, and for each page, at its number, the count that leaves
// it and the cells that it has and is to have. Meanwhile the header says that all the hours of all pages are logged, so that no page is cut
// off.
#[derive(Clone, Copy)]
pub struct Plan<'a> {
    pub base: usize,
    pub shift: Shift,
    pub leaving: &'a [u32],
    pub old: &'a [u8],
    pub new: &'a [u8],
    pub all: usize,
}

// Page p in its turn: one that grows is due in the late pass, any other in the first. The store is one between two pages of the shift.
// late is the Bool of store's definition `moving`, by which the laws say what each pass leaves; no enum says it.
fn pass_page(s: &mut [u8], plan: Plan, late: bool, p: usize, table: &SumTable)
    requires { Some plan late p s.old × (plan.shift.first ≤ p) × (p < plan.shift.end) }
    ensures { PassTo plan.entry late p (λ _. p + 1) s.old s.new }
{
    let old = usize::from(plan.old[p]);
    let new = usize::from(plan.new[p]);
    if late != (old < new) {
        return;
    }
    let change = PageMove {
        page: p,
        edit: plan.shift.edit,
        at: plan.shift.near(p),
        count: plan.shift.coming(plan.leaving, p),
        old,
        new,
    };
    move_page(s, plan.base, change, plan.all, table);
}

// One pass, over all pages that move.
fn pass(s: &mut [u8], plan: Plan, late: bool, table: &SumTable)
    requires { Some plan late 0 s.old }
    ensures { PassTo plan.entry late 0 pages_in s.old s.new }
{
    for p in plan.shift.first..plan.shift.end {
        pass_page(s, plan, late, p, table);
    }
}

// Both passes, and then the hours that are logged.
pub fn move_all(s: &mut [u8], plan: Plan, hours: usize)
    requires { Enough s.old plan × (hours ≡ length (shifted plan.shift (list_in s.old))) }
    ensures { Settles s.old plan.entry.shift s.new }
{
    let table = SumTable::new();
    put::<4>(s, 12, plan.all as u64);
    pass(s, plan, false, &table);
    pass(s, plan, true, &table);
    put::<4>(s, 12, hours as u64);
}
