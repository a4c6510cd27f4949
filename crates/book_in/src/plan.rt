// The plan of the image of a book's list.
ghost use Rattle.std.specs.Prelude.{◌≤◌};
ghost use Rattle.book.specs.Book.{list_of_book};
ghost use Rattle.image_plan.specs.Code.Planning.{Drafted, Planned};

use answers::refusal::Refusal;
use book::sum_at;
use image_plan::{Layout, Plan, add_page, finish, start};

// Adds the pages that a plan of a book's list lacks. An own loop, as image_write has: what a closure for the sums would ask is longer than
// it.
fn add_pages(book: &[u8], plan: Plan) -> Plan
    requires { Drafted plan.e (list_of_book book.now) plan }
    ensures { Drafted plan.e (list_of_book book.now) result × (result.pages ≤ result.done) }
{
    let m = reserve::power(plan.e) as usize;
    let mut next = plan;
    for page in plan.done..plan.pages {
        let s = sum_at(book, m * page, m);
        next = add_page(next, s);
    }
    next
}

// The layout of the image of a book's list, or why it has none.
pub(crate) fn layout_of(book: &[u8], e: u32) -> Result<Layout, Refusal>
    ensures { Planned e (list_of_book book.now) result }
{
    let plan = start(e, (book.len() / 2) as u64)?;
    finish(add_pages(book, plan))
}
