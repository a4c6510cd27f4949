// The hours of an accepted image in blocks of 256, which whole pages of every size make: hour i of two images stands at the same place of
// their blocks, whatever their pages. Behind the list's end a block has zeros.
#![tactic(auto)]

ghost use Rattle.std.specs.Prelude.{◌≡◌, ◌*◌, ◌≤◌};
ghost use Rattle.lists.specs.Lists.{window};
ghost use Rattle.image.specs.Read.{list_of};

use image::opened::Accepted;
use image_page::{page_counts, places_of};
use reserve::power;
use sum_table::SumTable;

// Puts the counts of block b of the image into an array. The table of small sums is lent. The block's pages are found here and not by a
// function for all blocks: image_put::put_block says why.
pub fn unpack(image: &Accepted, table: &SumTable, b: usize, counts: &mut [u32; 256])
    requires { b ≤ 256 }
    ensures { counts.new ≡ window (list_of image.now.bytes.now) (256 * b) 256 }
{
    let e = image.head.e;
    let m = power(e) as usize;
    let many = power(8 - e) as usize;
    let first = many * b;
    let some = (image.head.pages as usize).saturating_sub(first).min(many);
    let places = places_of(image);
    counts.fill(0);
    for j in 0..some {
        page_counts(&places, table, first + j, counts, m * j);
    }
}
