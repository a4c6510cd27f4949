// Books in packed decimal: whether bytes are one, and the counts that they say.
#![tactic(auto)]

ghost use Rattle.std.specs.Prelude.{◌≡◌, ◌+◌, ◌*◌, ◌-◌, ◌/◌, ◌≤◌, ◌<◌, min, eqb, length, get_or};
ghost use Rattle.lists.specs.Lists.{sum, window};
ghost use Rattle.book.specs.Book.{decimal, decimal_byte, list_of_book, unpacked_byte};

// 1 for a byte with a half above 9, 0 for two digits.
fn fault(b: u8) -> u8
    ensures { eqb result 0 ≡ decimal_byte b }
{
    if 9 < b / 16 {
        return 1;
    }
    if 9 < b % 16 {
        return 1;
    }
    0
}

// Whether a book has an even length, and digits alone: not refusal 14. The loop does not stop at a fault, which is kept in a byte: the
// compiler then tests sixteen bytes at once.
pub fn is_decimal(book: &[u8]) -> bool
    ensures { result ≡ decimal book.now }
{
    if book.len() % 2 != 0 {
        return false;
    }
    let mut worst = 0u8;
    for b in book {
        worst = worst.max(fault(*b));
    }
    worst == 0
}

// The number that the two digits of a byte say.
fn unpacked(b: u8) -> u32
    ensures { (result ≡ unpacked_byte b) × (result ≤ 165) }
{
    10 * u32::from(b / 16) + u32::from(b % 16)
}

// The count of hour i, which the book has.
fn hour_at(book: &[u8], i: usize) -> u32
    requires { 2 * i + 1 < length book.now }
    ensures { (result ≡ get_or (list_of_book book.now) i 0) × (result ≤ 16665) }
{
    let at = 2 * i;
    let high = unpacked(book[at]);
    let low = unpacked(book[at + 1]);
    100 * high + low
}

// How many of n hours from hour from on lie within the book, so that a loop over them need not ask it of each.
fn within(book: &[u8], from: usize, n: usize) -> usize
    ensures { result ≡ min n (length book.now / 2 - from) }
{
    n.min((book.len() / 2).saturating_sub(from))
}

// Puts the counts of the hours from hour from on into counts, zeros behind the last hour. By an index, for behind a zip with iter_mut a
// proof knows no element.
pub fn hours(book: &[u8], from: usize, counts: &mut [u32])
    requires { from + length counts.old < 4294967296 }
    ensures { counts.new ≡ window (list_of_book book.now) from (length counts.old) }
{
    let own = within(book, from, counts.len());
    for i in 0..own {
        counts[i] = hour_at(book, from + i);
    }
    counts[own..].fill(0);
}

// The sum of the counts of n hours from hour from on, none behind the last hour. By an index, as in hours: as pairs of as_chunks the hours
// would first have to be cut out of the book.
pub fn sum_at(book: &[u8], from: usize, n: usize) -> u64
    requires { (from + n < 4294967296) × (n ≤ 65536) }
    ensures { (result ≡ sum (window (list_of_book book.now) from n)) × (result ≤ 16665 * n) }
{
    let own = within(book, from, n);
    let mut total = 0;
    for i in 0..own {
        total += u64::from(hour_at(book, from + i));
    }
    total
}
