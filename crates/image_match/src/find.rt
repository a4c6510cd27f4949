// The search along the pages of an accepted image at whose hours a run may end.
ghost use Rattle.std.specs.Prelude.{◌≤◌};
ghost use Rattle.image.specs.Read.{list_of};
ghost use Rattle.image_match.specs.Code.Find.{Finds};

use answers::image::Run;
use image::opened::Accepted;
use image_cursor::cursor::Cursor;
use match_page::front_page;
use match_seek::{Aim, PageSearch, visit};
use sum_marks::marks::{MARKS_LENGTH, Marks};
use sum_table::SumTable;

// The first hours with sum q, of these the fewest.
pub(crate) fn find(image: &Accepted, table: &SumTable, q: u64) -> Option<Run>
    requires { 1 ≤ q }
    ensures { Finds (list_of image.now.bytes.now) q result }
{
    let mut front = [0u32; 256];
    let mut marks = Marks {
        stamps: [0; MARKS_LENGTH as usize],
    };
    let mut back = Cursor::new(image, table);
    back.read(0);
    let mut at = Aim { lo: 0, want: q };
    // the coins before the page at the front
    let mut before = 0;
    for p in 0..image.head.pages {
        let page = front_page(image, p << image.head.e, before);
        match visit(page, at, &mut front, &mut marks, &mut back) {
            PageSearch::Matched(run) => {
                return Some(run);
            }
            PageSearch::Beyond(next) => {
                at = Aim {
                    lo: next.lo,
                    want: next.want - page.sum,
                };
            }
        }
        before += page.sum;
    }
    None
}
