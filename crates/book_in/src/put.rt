// The image of a book's list, put into a buffer that has room for it.
ghost use Rattle.std.specs.Prelude.{◌≡◌};
ghost use Rattle.lists.specs.Lists.{splice};
ghost use Rattle.book.specs.Book.{list_of_book};
ghost use Rattle.image.specs.Image.{image};
ghost use Rattle.image_put.specs.Code.Writing.{Room};

use book::hours;
use image_plan::Layout;
use image_put::{begin, end, put_page};

// Writes the image of a book's list: page after page, each unpacked into one array. An own loop beside image_write's, whose pages lie in
// its list already: what a closure for the counts would ask is longer than it.
pub(crate) fn put_image(out: &mut [u8], book: &[u8], r: Layout)
    requires { Room (list_of_book book.now) r out.old }
    ensures { out.new ≡ splice out.old 0 (image r.e (list_of_book book.now)) }
{
    let m = reserve::power(r.e) as usize;
    let mut room = [0u32; 256];
    let counts = &mut room[..m];
    let mut at = begin(out, r);
    for page in 0..r.pages {
        hours(book, m * page, counts);
        at = put_page(out, r, at, counts, 0);
    }
    end(out, r);
}
