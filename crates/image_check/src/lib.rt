// The check of an image: whether bytes are the writer's; and an image opened that the check accepts.
#![tactic(auto)]

ghost use Rattle.std.specs.Prelude.{◌&&◌, ◌≡◌, ◌+◌, ◌-◌, ◌*◌, ◌≤◌};
ghost use Rattle.lists.specs.Counts.{max_count, within};
ghost use Rattle.bits.specs.Bits.{bits};
ghost use Rattle.tree.specs.Code.Exact.{clear};
ghost use Rattle.image.specs.Image.{bytes_for};
ghost use Rattle.image.specs.Read.{n_of, s_of, l_of, page_count_of, code_at, list_of};
ghost use Rattle.image.specs.Check.{accepted, check as check_of};
ghost use Rattle.answers.specs.Image.{ruled};
ghost use Rattle.image_test.specs.Code.Test.{pages_from, says, sum_at};
ghost use Rattle.image_check.specs.Code.Access.{Accesses};

use answers::image::Contents;
use answers::refusal::Refusal;
use image::head::{Head, open_image};
use image::opened::{Accepted, Image};
use image_query::look;
use image_test::page_test;
use reserve_table::ReserveTable;
use tree_lowest::zero_bits;

// Whether each page passes with no count above widest, all L bits are used, and the last root is S. A loop: a fold over end and root is no
// plainer.
fn pages_pass(image: &Image, table: &ReserveTable, widest: u64) -> bool
    ensures { result ≡ pages_from widest image.now.bytes.now (page_count_of image.now.bytes.now) 0 0 0 }
{
    let mut end = 0;
    let mut root = 0;
    for p in 0..image.head.pages {
        let Some(t) = page_test(image, table, p, end, root, widest) else {
            return false;
        };
        end = t.end;
        root = t.root;
    }
    end == image.head.bits && root == image.head.total
}

// Whether the reading at N is S, so that the hours from N on are 0.
fn rest_zero(image: &Image) -> bool
    ensures { result ≡ says (sum_at image.now.bytes.now (n_of image.now.bytes.now)) (s_of image.now.bytes.now) }
{
    let head = image.head;
    if head.hours == 0 {
        return head.total == 0;
    }
    look(image, head.hours - 1, true).is_some_and(|r| r == head.total)
}

// Whether the last byte's other bits are 0.
fn fill_zero(image: &Image) -> bool
    ensures { let s = image.now.bytes.now in result ≡ clear (bits s) (code_at s + l_of s) (8 * bytes_for (l_of s) - l_of s) }
{
    let end = image.head.code + (image.head.bits as usize);
    let spare = 8 * image.bytes.len() - end;
    zero_bits(image.bytes, end, spare)
}

// Whether an image is the writer's and has no count above widest. All counts are looked at in the one pass of the check.
pub fn passes(image: &Image, widest: u64) -> bool
    requires { widest ≤ max_count }
    ensures { result ≡ (accepted image.now.bytes.now && within widest (list_of image.now.bytes.now)) }
{
    let table = ReserveTable::new();
    pages_pass(image, &table, widest) && rest_zero(image) && fill_zero(image)
}

// Opens an image and checks it: Refusal::Header for a wrong header or length, Refusal::Body for bytes that are not the writer's. passes is
// given a limit that no count is above.
pub fn open_accepted(s: &[u8]) -> Result<Accepted, Refusal>
    ensures { Accesses s.now result }
{
    let image = open_image(s)?;
    if !passes(&image, Head::MAX_COUNT) {
        return Err(Refusal::Body);
    }
    Ok(Accepted {
        bytes: image.bytes,
        head: image.head,
    })
}

// The check: N and S of an image, or a refusal. A From<Head> for Contents would serve this place alone, and be longer.
pub fn check(s: &[u8]) -> Result<Contents, Refusal>
    ensures { ruled result ≡ check_of s.now }
{
    let head = open_accepted(s)?.head;
    Ok(Contents {
        hours: head.hours,
        total: head.total,
    })
}
