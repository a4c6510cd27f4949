// Reach: the least index whose reading is a figure or more.
#![tactic(auto)]

ghost use Rattle.std.specs.Prelude.{◌≤◌};
ghost use Rattle.image.specs.Reach.{Reach};
ghost use Rattle.answers.specs.Image.{told};
ghost use Rattle.image_find.specs.Code.Span.{PageHit};

use answers::refusal::Refusal;
use image::head::open_image;
use image::opened::Image;
use image::page::{page_between, root_before, root_of};
use image_find::find;

// The answer from page p, which was found.
fn reach_in(image: &Image, q: u64, p: u64) -> Result<u64, Refusal>
    requires { (q ≤ image.now.head.total) × PageHit image.now.bytes.now q p }
    ensures { Reach image.now.bytes.now q (told result) }
{
    let head = image.head;
    let found = page_between(head, root_of(image, p), root_before(image, p));
    let page = found.ok_or(Refusal::Body)?;
    if page.before + page.sum < q {
        return Err(Refusal::Body);
    }
    let sought = tree_search::search(
        image.bytes,
        page.at,
        head.e,
        page.sum,
        q - page.before,
        reserve::power(head.e) * p,
    );
    sought.filter(|i| *i <= head.hours).ok_or(Refusal::Body)
}

// The least index whose reading is p or more.
pub fn reach(s: &[u8], p: u64) -> Result<u64, Refusal>
    ensures { Reach s.now p (told result) }
{
    let image = open_image(s)?;
    if image.head.total < p {
        return Err(Refusal::Figure);
    }
    if p == 0 {
        return Ok(0);
    }
    let at = find(&image, p).ok_or(Refusal::Body)?;
    reach_in(&image, p, at.lo)
}
