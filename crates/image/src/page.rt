// A page of an image: its root, the root before it, and the tests of both and of its tree.
ghost use Rattle.std.specs.Prelude.{◌+◌, ◌<◌};
ghost use Rattle.image.specs.Read.{page_count_of};
ghost use Rattle.image.specs.Code.Page.{BeforeAt, PageAt, Rooted, RootAt};

use crate::head::{Head, table_at};
use crate::opened::Image;
use bits::numbers::get;

// A root that was read: its number, and where it ends in the code.
#[derive(Clone, Copy)]
pub struct Root {
    pub value: u64,
    pub end: u64,
}

// Page p's root, if it does not pass L. A page's number is an index, so its bound is asked as an index's is.
pub fn root_of(image: &Image, p: u64) -> Option<Root>
    requires { p < page_count_of image.now.bytes.now }
    ensures { RootAt image.now.bytes.now p result }
{
    let head = image.head;
    let start = get::<4>(image.bytes, table_at(head.table, p));
    let w = head.root_width();
    let end = start + u64::from(w);
    if head.bits < end {
        return None;
    }
    let value = bits_field::get_field(image.bytes, head.code + (start as usize), w);
    Some(Root { value, end })
}

// The number of the root of the page before page p: 0 before page 0.
pub fn root_before(image: &Image, p: u64) -> Option<u64>
    requires { p < page_count_of image.now.bytes.now }
    ensures { BeforeAt image.now.bytes.now p result }
{
    if p == 0 {
        return Some(0);
    }
    Some(root_of(image, p - 1)?.value)
}

// A page without damage in its roots, whose tree does not pass L: the root before it, its sum, and where its tree starts among the bits of
// all the bytes.
#[derive(Clone, Copy)]
pub struct Page {
    pub before: u64,
    pub sum: u64,
    pub at: usize,
}

// The page between two roots, its own and the number of the one before it, tested: none for damage. It reads nothing: its callers read both
// roots themselves, so that the compiler keeps header, roots and page in registers. A function that reads two roots is too large for it to
// be joined with its callers.
pub fn page_between(head: Head, own: Option<Root>, last: Option<u64>) -> Option<Page>
    requires { Rooted head own last }
    ensures { (a : Rooted head own last) → PageAt a.s a.p result }
{
    let own = own?;
    let before = last?;
    if head.total < own.value {
        return None;
    }
    let sum = own.value.checked_sub(before)?;
    if head.bits < own.end + (reserve::reserve_of(head.e, sum) as u64) {
        return None;
    }
    let at = head.code + (own.end as usize);
    Some(Page { before, sum, at })
}
