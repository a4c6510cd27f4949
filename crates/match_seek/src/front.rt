// The page at the front with its counts and marks, and the search in it.
ghost use Rattle.std.specs.Prelude.{◌≡◌, ℕ, ◌+◌, ◌-◌, ◌≤◌, ◌<◌, length};
ghost use Rattle.lists.specs.Lists.{part};
ghost use Rattle.image.specs.Read.{list_of};
ghost use Rattle.image_cursor.specs.Code.Cursor.{Ahead};
ghost use Rattle.match_page.specs.Code.Page.{InHand, RunOf};
ghost use Rattle.match_seek.specs.Code.Seek.{Brings, FirstAbove, Later, Passing, Reached, Seeks};

use crate::{Aim, PageSearch};
use answers::image::Run;
use bits_word::low_bits;
use image::opened::Accepted;
use image_cursor::cursor::{Cursor, ahead};
use lists::either;
use match_page::FrontPage;
use sum_marks::marks::Marks;
use sum_marks::prefix::Prefix;

// The first of the four hours after lo that wants more than sum. They want a, b, c and d, each no less than the one before, and d is more
// than sum. No jump: which of the four it is, a processor cannot foretell. Four parameters: the caller has them one by one.
fn first_above(sum: u64, lo: u64, a: u64, b: u64, c: u64, d: u64) -> Aim
    requires { (a ≤ b) × (b ≤ c) × (sum < d) × (lo ≤ 4294967295) }
    ensures { FirstAbove sum lo a b c d result }
{
    let past = either(a <= sum, 1, 0) + either(b <= sum, 1, 0) + either(c <= sum, 1, 0);
    let late = either(c <= sum, d, c);
    let later = either(b <= sum, late, b);
    Aim {
        lo: lo + 1 + past,
        want: either(a <= sum, later, a),
    }
}

// The page at the front of an image, its counts, and the table in which their sums have their marks.
#[derive(Clone, Copy)]
pub struct Front<'a> {
    pub image: &'a Accepted<'a>,
    pub page: FrontPage,
    pub counts: &'a [u32],
    pub marks: &'a Marks,
    ghost run_is: { RunOf (list_of image.now.bytes.now) page },
    ghost in_hand: { InHand (list_of image.now.bytes.now) page counts.now marks.now.stamps },
}

impl Front<'_> {
    // Passes over the hour that the search is at, and over the next ones, four at a time, as long as none of the four may be met. Where one
    // of the four wants more than the page has, it goes as far as that. The counts are those from that hour on, in its page. That what is
    // wanted is within the page is asked of each of the three, and is in no ghost field: it holds of where the search is, and not of a
    // page.
    fn skip(&self, at: Aim, counts: &[u32]) -> Aim
        ghost q: { ℕ }
        requires passing { Passing (list_of self.now.image.now.bytes.now) q self.now.page at }
        requires counts_are { Ahead self.now.image.now.head at.lo (length counts.now)
            × (counts.now ≡ part (list_of self.now.image.now.bytes.now) at.lo (length counts.now)) }
        ensures { (at.lo ≤ result.lo) × (result.lo ≤ at.lo + length counts.now)
            × Reached (list_of self.now.image.now.bytes.now) q self.now.page result }
    {
        let sum = self.page.sum;
        let mut next = at;
        for [a, b, c, d] in counts.as_chunks::<4>().0 {
            let first = next.want + u64::from(*a);
            let second = first + u64::from(*b);
            let third = second + u64::from(*c);
            let fourth = third + u64::from(*d);
            if self
                .marks
                .any_carries(first, second, third, fourth, self.page.stamp)
            {
                break;
            }
            if sum < fourth {
                return first_above(sum, next.lo, first, second, third, fourth);
            }
            next = Aim {
                lo: next.lo + 4,
                want: fourth,
            };
        }
        next
    }

    // Passes over that hour, and over the next ones, until the coins that one wants may be met in the page at the front, or are more than
    // this has. Single steps are left for four hours of which one may be met, and for the last of their page.
    fn pass_hours(&self, at: Aim, counts: &[u32]) -> Aim
        ghost q: { ℕ }
        requires passing { Passing (list_of self.now.image.now.bytes.now) q self.now.page at }
        requires counts_are { Ahead self.now.image.now.head at.lo (length counts.now)
            × (counts.now ≡ part (list_of self.now.image.now.bytes.now) at.lo (length counts.now)) }
        ensures { Later (list_of self.now.image.now.bytes.now) self.now.image.now.head q self.now.page.first at result }
    {
        let gone = self.skip(at, counts);
        let sum = self.page.sum;
        if sum < gone.want {
            return gone;
        }
        let mut next = gone;
        for count in &counts[(gone.lo - at.lo) as usize..] {
            next = Aim {
                lo: next.lo + 1,
                want: next.want + u64::from(*count),
            };
            if sum < next.want || self.marks.carries(next.want, self.page.stamp) {
                return next;
            }
        }
        next
    }

    // The same in the page of that hour, which back is at.
    fn pass(&self, at: Aim, back: &Cursor) -> Aim
        ghost q: { ℕ }
        requires passing { Passing (list_of self.now.image.now.bytes.now) q self.now.page at }
        requires ready { (back.now.hour ≡ at.lo) × (back.now.image.now ≡ self.now.image.now) }
        ensures { Later (list_of self.now.image.now.bytes.now) self.now.image.now.head q self.now.page.first at result }
    {
        let b = low_bits(at.lo, self.image.head.e) as usize;
        self.pass_hours(at, &back.counts[b..b + ahead(self.image.head, at.lo)])
    }
}

// The search as far as the page at the front goes, whose counts have their marks; back is at the first hour that is tried.
pub(crate) fn seek(
    page: FrontPage,
    counts: &[u32],
    marks: &Marks,
    from: Aim,
    back: &mut Cursor,
) -> PageSearch
    ghost q: { ℕ }
    requires page_is { let xs = list_of back.old.image.now.bytes.now in RunOf xs page × InHand xs page counts.now marks.now.stamps }
    requires seeks { Seeks (list_of back.old.image.now.bytes.now) q page.first from × (back.old.hour ≡ from.lo) }
    ensures { Brings back.old.image.now.bytes.now q page back.new.hour result × (back.new.image.now ≡ back.old.image.now) }
{
    let front = Front {
        image: back.image,
        page,
        counts,
        marks,
    };
    let mut at = from;
    let mut there = Prefix { hours: 0, sum: 0 };
    // A while: how many first hours are tried is not known before it.
    while at.want <= page.sum {
        there = marks.attempt(counts, page.stamp, there, at.want);
        if there.sum == at.want {
            let end = page.first + (there.hours as u64);
            return PageSearch::Matched(Run {
                first: at.lo,
                hours: end - at.lo,
            });
        }
        let next = front.pass(at, back);
        back.turn(next.lo - at.lo);
        at = next;
    }
    PageSearch::Beyond(at)
}
