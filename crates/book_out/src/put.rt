// The book of an accepted image, put into a buffer that has room for it.
ghost use Rattle.std.specs.Prelude.{true, ◌≡◌, ◌*◌, ◌≤◌, length};
ghost use Rattle.lists.specs.Lists.{splice};
ghost use Rattle.book.specs.Book.{book_of, four_digits};
ghost use Rattle.image.specs.Read.{list_of, n_of};

use book_pack::put_hours;
use image::opened::Accepted;
use image_page::{page_counts, places_of};
use sum_table::SumTable;

// Page by page, the last up to hour N.
pub(crate) fn put_book(image: &Accepted, book: &mut [u8])
    requires { (four_digits (list_of image.now.bytes.now) ≡ true) × (2 * n_of image.now.bytes.now ≤ length book.old) }
    ensures { book.new ≡ splice book.old 0 (book_of (list_of image.now.bytes.now)) }
{
    let table = SumTable::new();
    let places = places_of(image);
    let m = reserve::power(image.head.e) as usize;
    let n = image.head.hours as usize;
    let mut counts = [0u32; 256];
    for p in 0..image.head.pages as usize {
        page_counts(&places, &table, p, &mut counts, 0);
        let from = m * p;
        let some = m.min(n - from);
        put_hours(book, from, &counts[..some]);
    }
}
