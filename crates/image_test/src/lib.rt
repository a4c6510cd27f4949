// The test of one page of an image.
#![tactic(auto)]

ghost use Rattle.std.specs.Prelude.{◌≤◌, ◌<◌};
ghost use Rattle.image.specs.Read.{page_count_of};
ghost use Rattle.image_test.specs.Code.Test.{Tests};

use image::opened::Image;
use image::page::root_of;
use reserve_table::ReserveTable;
use tree_narrow::nodes;

// A page that passed: where its code ends, and its root.
#[derive(Clone, Copy)]
pub struct Tested {
    pub end: u64,
    pub root: u64,
}

// Tests page p, which is to start at bit start of the code, the root before it being before, with a limit for its counts. It takes the
// tree's reserve and place as `page_between` does, but tests where the page starts, not that its root is S at most, and answers
// where it ends.
pub fn page_test(
    image: &Image,
    table: &ReserveTable,
    p: u64,
    start: u64,
    before: u64,
    widest: u64,
) -> Option<Tested>
    requires { (p < page_count_of image.now.bytes.now) × (start ≤ image.now.head.bits) }
    ensures { Tests widest image.now.bytes.now p start before result }
{
    let head = image.head;
    let own = root_of(image, p)?;
    if own.end != start + u64::from(head.root_width()) {
        return None;
    }
    let sum = own.value.checked_sub(before)?;
    let size = reserve::reserve_of(head.e, sum);
    let end = own.end + (size as u64);
    if head.bits < end {
        return None;
    }
    let at = head.code + (own.end as usize);
    if !nodes(image.bytes, table, at, head.e, sum, size, widest) {
        return None;
    }
    Some(Tested {
        end,
        root: own.value,
    })
}
