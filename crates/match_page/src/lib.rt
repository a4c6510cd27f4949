// The page at the front, where runs may end: its sum by its root, and its counts read and their sums marked.
#![tactic(auto)]

ghost use Rattle.std.specs.Prelude.{◌≡◌, ◌%◌, ◌^◌, ◌<◌, take};
ghost use Rattle.lists.specs.Lists.{reading};
ghost use Rattle.image.specs.Read.{list_of};
ghost use Rattle.match_page.specs.Code.Page.{FrontPageOf, InHand};

use image::opened::Accepted;
use image_cursor::cursor::ahead;
use image_page::{counts_of, page_root};
use sum_marks::marks::Marks;
use sum_table::SumTable;

// The page at the front: its first hour, how many it has and their sum, and the stamp of its marks.
#[derive(Clone, Copy)]
pub struct FrontPage {
    pub first: u64,
    pub hours: usize,
    pub sum: u64,
    pub stamp: u8,
}

// The page whose first hour this is, with so many coins in the hours before it: its sum is what its root is above them, and none of its
// counts is read. Stamps come again after 255 pages: one of old does no harm, and none has to be taken away.
pub fn front_page(image: &Accepted, first: u64, before: u64) -> FrontPage
    requires starts { (first < image.now.head.hours) × (first % 2 ^ image.now.head.e ≡ 0) }
    requires before_value { before ≡ reading (list_of image.now.bytes.now) first }
    ensures { (result.first ≡ first) × FrontPageOf image.now.bytes.now image.now.head result }
{
    let p = first >> image.head.e;
    FrontPage {
        first,
        hours: ahead(image.head, first),
        sum: page_root(image, p as usize) - before,
        // a table starts as zeros: no page's stamp is 0, so that a place with no mark yet has none of them
        stamp: (p % 255 + 1) as u8,
    }
}

// Reads the page's counts, and marks their sums.
pub fn mark_page(
    image: &Accepted,
    table: &SumTable,
    page: FrontPage,
    counts: &mut [u32; 256],
    marks: &mut Marks,
)
    requires { FrontPageOf image.now.bytes.now image.now.head page }
    ensures { InHand (list_of image.now.bytes.now) page (take page.hours counts.new) marks.new.stamps }
{
    let p = page.first >> image.head.e;
    counts_of(image, table, p as usize, page.sum, counts);
    marks.mark(&counts[..page.hours], page.stamp);
}
