// Counts packed into the bytes of a book.
#![tactic(auto)]

ghost use Rattle.std.specs.Prelude.{true, [], ◌∷◌, ◌≡◌, ◌+◌, ◌*◌, ◌≤◌, ◌<◌, length};
ghost use Rattle.lists.specs.Lists.{splice};
ghost use Rattle.book.specs.Book.{book_of, four_digits, packed_byte};

// The byte with the two digits of a number: each ten of it counts 16 there, 6 more.
fn packed(n: u16) -> u8
    requires { n < 100 }
    ensures { result ≡ packed_byte n }
{
    (n + 6 * (n / 10)) as u8
}

// Puts the four digits of a count into two bytes of a book. In numbers of 16 bits: the compiler then packs several counts at once. Of
// c % 100 it knows that a byte holds it, and goes on in bytes: a book then takes a quarter longer.
fn put_hour(book: &mut [u8], at: usize, count: u32)
    requires { (at + 1 < length book.old) × (count ≤ 9999) }
    ensures { book.new ≡ splice book.old at (book_of (count ∷ [])) }
{
    let c = count as u16;
    book[at] = packed(c / 100);
    book[at + 1] = packed(c - 100 * (c / 100));
}

// Puts the counts into a book, from hour from on. By an index, for behind a zip with chunks_mut a proof knows no element.
pub fn put_hours(book: &mut [u8], from: usize, counts: &[u32])
    requires { (2 * (from + length counts.now) ≤ length book.old) × (four_digits counts.now ≡ true) }
    ensures { book.new ≡ splice book.old (2 * from) (book_of counts.now) }
{
    for (i, count) in counts.iter().enumerate() {
        put_hour(book, 2 * (from + i), *count);
    }
}
