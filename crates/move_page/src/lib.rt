// One page of a store whose hours move by one place: read, turned and written again, with the cells that it is to have.
#![tactic(auto)]

ghost use Rattle.move_page.specs.Code.Move.{Movable, Moved};

use bits::numbers::get;
use chains::rewrite::{PageChange, rewrite};
use move_counts::{Edit, leaves_at, turn};
use pages::code::code_of;
use pages::entry::Entry;
use store::header::entry_at;
use sum_table::SumTable;

// A page that moves: its number, what is done, the index from which its counts move, the count that comes in, and the cells that it has and
// is to have.
#[derive(Clone, Copy)]
pub struct PageMove {
    pub page: usize,
    pub edit: Edit,
    pub at: usize,
    pub count: u32,
    pub old: usize,
    pub new: usize,
}

// Moves the page's counts by one place. Between two pages the header says 64 hours for each page: so none is cut off. The table of small
// sums is lent, as many pages move.
pub fn move_page(s: &mut [u8], base: usize, c: PageMove, hours: usize, table: &SumTable)
    requires { Movable s.old base c hours }
    ensures { Moved s.old c s.new }
{
    let page = c.page;
    let at = c.at;
    let old = c.old;
    let before = get::<4>(s, entry_at(page));
    let entry = Entry {
        bytes: s,
        base,
        page,
        sum: before,
        cells: old,
    };
    let mut counts = entry.counts(table);
    let leaves = leaves_at(c.edit, at);
    let sum = before - u64::from(counts[leaves]) + u64::from(c.count);
    turn(&mut counts, c.edit, at, c.count);
    let code = code_of(counts, sum);
    let change = PageChange {
        page,
        old,
        new: c.new,
        sum,
    };
    rewrite(s, base, change, &code, hours);
}
