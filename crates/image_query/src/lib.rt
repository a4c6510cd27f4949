// Count and reading of an image: each tests only its path.
#![tactic(auto)]

ghost use Rattle.std.specs.Prelude.{◌≡◌, ◌/◌, ◌^◌, ◌≤◌, ◌<◌};
ghost use Rattle.std.specs.Int.{from_bool};
ghost use Rattle.tree_walk.specs.Code.Answers.{walk_answer as walked};
ghost use Rattle.image.specs.Query.{ended, look as looked, count as counted, reading as read};
ghost use Rattle.image.specs.Code.Page.{PageOf};
ghost use Rattle.image_query.specs.Code.Walk.{Ends, count_answered};
ghost use Rattle.answers.specs.Image.{told};

use answers::refusal::Refusal;
use image::head::{Head, open_image};
use image::opened::Image;
use image::page::{Page, page_between, root_before, root_of};
use tree_walk::walk;

// The page with hour i. It is no method of Head, nor is the place in the page: each is one word, here as in image_cursor.
fn page_with(image: &Image, i: u64) -> u64
    ensures { result ≡ i / 2 ^ image.now.head.e }
{
    i / reserve::power(image.head.e)
}

// The way to hour i in its page. This function and the next take image, page and hour one by one: a struct of them would be made in three
// places to say no more. Answers the hour's count, with the counts before it added where keep is set, for one walk serves count and
// reading; none for damage.
fn look_in(image: &Image, page: Page, i: u64, keep: bool) -> Option<u64>
    requires { PageOf image.now.bytes.now (i / 2 ^ image.now.head.e) page }
    ensures { result ≡ walked 0 (from_bool keep) (looked image.now.bytes.now i) }
{
    let e = image.head.e;
    let m = reserve::power(e);
    walk(
        image.bytes,
        page.at,
        e,
        page.sum,
        i % m,
        u64::from(keep) * page.before,
        keep,
    )
}

// The same where the page is not read yet. Count and reading read it themselves: this function is too large to be joined with each.
pub fn look(image: &Image, i: u64, keep: bool) -> Option<u64>
    requires { i < image.now.head.hours }
    ensures { result ≡ walked 0 (from_bool keep) (looked image.now.bytes.now i) }
{
    let p = page_with(image, i);
    let page = page_between(image.head, root_of(image, p), root_before(image, p))?;
    look_in(image, page, i, keep)
}

// Whether the way to hour i in its page does not end at a count above the widest. Only a page with more coins than that can have one, and
// only there the hour's count is looked at.
fn ends_well(image: &Image, page: Page, i: u64) -> bool
    requires { PageOf image.now.bytes.now (i / 2 ^ image.now.head.e) page }
    ensures { Ends (looked image.now.bytes.now i) result }
{
    page.sum <= Head::MAX_COUNT
        || look_in(image, page, i, false).is_some_and(|c| c <= Head::MAX_COUNT)
}

// The way to hour i in its page, as a reading takes it: the counts before the hour, and its own; none for damage, which a count above the
// widest is, too.
fn look_through(image: &Image, page: Page, i: u64) -> Option<u64>
    requires { PageOf image.now.bytes.now (i / 2 ^ image.now.head.e) page }
    ensures { result ≡ walked 0 1 (ended (looked image.now.bytes.now i)) }
{
    if !ends_well(image, page, i) {
        return None;
    }
    look_in(image, page, i, true)
}

// The answer of the way to a count: one above the widest is damage, too.
fn count_of(way: Option<u64>) -> Result<u64, Refusal>
    ensures { told result ≡ count_answered way }
{
    way.filter(|count| *count <= Head::MAX_COUNT)
        .ok_or(Refusal::Body)
}

// The count of hour i.
pub fn count(s: &[u8], i: u64) -> Result<u64, Refusal>
    ensures { told result ≡ counted s.now i }
{
    let image = open_image(s)?;
    if image.head.hours <= i {
        return Err(Refusal::Hour);
    }
    let p = page_with(&image, i);
    let found = page_between(image.head, root_of(&image, p), root_before(&image, p));
    let page = found.ok_or(Refusal::Body)?;
    count_of(look_in(&image, page, i, false))
}

// The reading at i: the sum of the counts of the hours before i.
pub fn reading(s: &[u8], i: u64) -> Result<u64, Refusal>
    ensures { told result ≡ read s.now i }
{
    let image = open_image(s)?;
    if image.head.hours < i {
        return Err(Refusal::Hour);
    }
    if i == 0 {
        return Ok(0);
    }
    let hour = i - 1;
    let p = page_with(&image, hour);
    let found = page_between(image.head, root_of(&image, p), root_before(&image, p));
    let page = found.ok_or(Refusal::Body)?;
    look_through(&image, page, hour).ok_or(Refusal::Body)
}
