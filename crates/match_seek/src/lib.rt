// The search for hours with sum q in one page of an accepted image where they may end, one first hour after another: a run from one on ends
// where the coins since the log's start are q more than before it. That is looked up in the marks of the page at the front, which nearly
// always say that no run from this hour on ends there: so the jumps nearly always go the same way, as a processor foretells them. Each end
// has a page in hand. The code never asks for q: it is in what is wanted.
#![tactic(auto)]

mod front;

ghost use Rattle.std.specs.Prelude.{ℕ, ◌≡◌};
ghost use Rattle.image.specs.Read.{list_of};
ghost use Rattle.match_page.specs.Code.Page.{FrontPageOf};
ghost use Rattle.match_seek.specs.Code.Seek.{Brings, Seeks};

use crate::front::seek;
use answers::image::Run;
use image_cursor::cursor::Cursor;
use match_page::{FrontPage, mark_page};
use sum_marks::marks::Marks;

// The first hour of the runs that are tried, and how many coins more than before the page at the front are wanted where one of them ends.
#[derive(Clone, Copy)]
pub struct Aim {
    pub lo: u64,
    pub want: u64,
}

// What the search in a page comes to: the run, or where it goes on, for more is wanted than the page has. Both are answers, neither is an
// error or nothing, so it is no Result and no Option.
#[derive(Clone, Copy)]
pub enum PageSearch {
    Matched(Run),
    Beyond(Aim),
}

// The search in the page at the front, which is not read yet. Where it has fewer coins than are wanted, no run from the hour that the
// search is at or a later one on ends in it: that is known by its sum alone, and its counts need not be decoded. Counts, marks and
// cursor are lent one by one: of one struct they would be taken apart at once, as only the cursor turns while the others are read.
pub fn visit(
    page: FrontPage,
    at: Aim,
    counts: &mut [u32; 256],
    marks: &mut Marks,
    back: &mut Cursor,
) -> PageSearch
    ghost q: { ℕ }
    requires page_is { FrontPageOf back.old.image.now.bytes.now back.old.image.now.head page }
    requires seeks { Seeks (list_of back.old.image.now.bytes.now) q page.first at × (back.old.hour ≡ at.lo) }
    ensures { Brings back.old.image.now.bytes.now q page back.new.hour result × (back.new.image.now ≡ back.old.image.now) }
{
    if page.sum < at.want {
        return PageSearch::Beyond(at);
    }
    mark_page(back.image, back.table, page, counts, marks);
    seek(page, &counts[..page.hours], marks, at, back)
}
