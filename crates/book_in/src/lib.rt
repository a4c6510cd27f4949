// The image of a book in packed decimal. The book's list stands nowhere as one: its pages of 2^e counts are handed to the writer of images
// one after another.
#![tactic(auto)]

mod plan;
mod put;

ghost use Rattle.std.specs.Prelude.{◌≡◌};
ghost use Rattle.book.specs.Book.{list_of_book};
ghost use Rattle.image.specs.Calls.{result_of, write_call};
ghost use Rattle.book_in.specs.FromBook.{from_call};

use crate::plan::layout_of;
use crate::put::put_image;
use answers::refusal::Refusal;
use book::is_decimal;
use image_plan::room;

// Writes the image of the list that a book says. Not joined with `from_bcd`, which would then take this function's stack before its tests.
#[inline(never)]
fn write_list(book: &[u8], e: u32, out: &mut [u8]) -> Result<u64, Refusal>
    ensures { result_of result out.new ≡ write_call e (list_of_book book.now) out.old }
{
    let r = layout_of(book, e)?;
    let n = room(r, out.len())?;
    put_image(out, book, r);
    Ok(n)
}

// Writes the image of a book to the start of out, and no byte beyond it. The page size is tested before the digits are, and again by the
// plan, which has other callers.
pub fn from_bcd(book: &[u8], e: u32, out: &mut [u8]) -> Result<u64, Refusal>
    ensures { result_of result out.new ≡ from_call e book.now out.old }
{
    if e < 2 || 8 < e {
        return Err(Refusal::PageSize);
    }
    if !is_decimal(book) {
        return Err(Refusal::Book);
    }
    write_list(book, e, out)
}
