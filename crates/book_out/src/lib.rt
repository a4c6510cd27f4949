// The book of an accepted image, in packed decimal. The image's list stands nowhere as one: the check itself sees whether four digits hold
// each count; then a page at a time is unpacked, and its digits are put into the book.
#![tactic(auto)]

mod put;

ghost use Rattle.std.specs.Prelude.{true, ◌≡◌};
ghost use Rattle.image.specs.Read.{list_of};
ghost use Rattle.image.specs.Calls.{result_of};
ghost use Rattle.book.specs.Book.{four_digits};
ghost use Rattle.book_out.specs.ToBook.{book_put, to_call};

use crate::put::put_book;
use answers::refusal::Refusal;
use image::head::{Head, open_image};
use image::opened::Accepted;
use image_check::passes;

// The greatest count that four digits hold.
const WIDEST: u64 = 9999;

// Writes the book of an accepted image with no count above it. It tests the buffer itself: image_plan::room takes a layout, which no book
// has.
fn write_book(image: &Accepted, book: &mut [u8]) -> Result<u64, Refusal>
    requires { four_digits (list_of image.now.bytes.now) ≡ true }
    ensures { result_of result book.new ≡ book_put (list_of image.now.bytes.now) book.old }
{
    let n = 2 * image.head.hours;
    if (book.len() as u64) < n {
        return Err(Refusal::Buffer);
    }
    put_book(image, book);
    Ok(n)
}

// Writes the book of an image to the start of book, and no byte beyond it. Only an image that is turned down is checked twice: by the
// second check, with no limit for the counts, it is known for which of two reasons. What makes the image an Accepted is the check with the
// book's limit: open_accepted checks with another.
pub fn to_bcd(s: &[u8], book: &mut [u8]) -> Result<u64, Refusal>
    ensures { result_of result book.new ≡ to_call s.now book.old }
{
    let image = open_image(s)?;
    if passes(&image, WIDEST) {
        let accepted = Accepted {
            bytes: image.bytes,
            head: image.head,
        };
        return write_book(&accepted, book);
    }
    if passes(&image, Head::MAX_COUNT) {
        return Err(Refusal::FourDigits);
    }
    Err(Refusal::Body)
}
