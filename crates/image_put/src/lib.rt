// The parts of an image, put into a buffer that has room for it: the header, then page by page, then the zeros behind the code. For callers
// that have their counts page by page and nowhere as a list: whoever hands over the pages of a list gets the image of that list (`Laid` of
// specs/Code/Writing.antt).
#![tactic(auto)]

pub mod blocks;

ghost use Rattle.std.specs.Prelude.{true, false, ◌≡◌, ◌+◌, ◌-◌, ◌*◌, ◌^◌, ◌≤◌, min, length};
ghost use Rattle.lists.specs.Lists.{splice};
ghost use Rattle.image.specs.Image.{edition as number, header, header_length, image, wide};
ghost use Rattle.image.specs.Code.Head.{is_wide};
ghost use Rattle.image_put.specs.Code.Writing.{Blocked, Filled, Handed, Laid, Roomy, head_front, head_tail};

use bits::numbers::put;
use bits_clear::clear_bits;
use bits_field::put_field;
use image::head::{Edition, table_at};
use image_plan::Layout;
use tree::sums::sum_of;

// Writes the header's bytes 0 to 7, in which the editions differ by their number alone: four of them one by one, for an array of
// them copied in is no plainer.
fn put_front(out: &mut [u8], edition: Edition, r: Layout)
    requires { (16 ≤ length out.old) × (r.e ≤ 8) }
    ensures { out.new ≡ splice out.old 0 (head_front (number (is_wide edition)) r.e r.hours) }
{
    out[0] = edition.number();
    out[1] = r.e as u8;
    out[2] = 0;
    out[3] = 0;
    put::<4>(out, 4, r.hours);
}

// Writes the tail of edition 1, S and L. Edition 2 has its own function: one for both would take two widths and a place, to save two lines.
fn put_narrow(out: &mut [u8], r: Layout)
    requires { 16 ≤ length out.old }
    ensures { out.new ≡ splice out.old 8 (head_tail false r.total r.bits) }
{
    put::<4>(out, 8, r.total);
    put::<4>(out, 12, r.bits as u64);
}

// Writes the tail of edition 2: S in eight bytes, L, and zeros.
fn put_wide(out: &mut [u8], r: Layout)
    requires { 24 ≤ length out.old }
    ensures { out.new ≡ splice out.old 8 (head_tail true r.total r.bits) }
{
    put::<8>(out, 8, r.total);
    put::<4>(out, 16, r.bits as u64);
    put::<4>(out, 20, 0);
}

// Writes the header: of edition 2 only where the total is above edition 1's.
fn put_header(out: &mut [u8], r: Layout)
    requires { (header_length (wide r.total) ≤ length out.old) × (r.e ≤ 8) }
    ensures { out.new ≡ splice out.old 0 (header r.e r.hours r.total r.bits) }
{
    let edition = Edition::for_total(r.total);
    put_front(out, edition, r);
    match edition {
        Edition::Narrow => put_narrow(out, r),
        Edition::Wide => put_wide(out, r),
    }
}

// The place of the next page: its number, where it starts in the code, and the sum of the counts before it. It goes beside buffer and
// layout, not into one struct with them: what joins them, `Laid`, names a list that stands nowhere in the code, which no ghost field can.
#[derive(Clone, Copy)]
pub struct Place {
    pub page: usize,
    pub start: usize,
    pub before: u64,
}

// Begins an image, and answers the place of page 0.
pub fn begin(out: &mut [u8], r: Layout) -> Place
    requires { Roomy r out.old }
    ensures { (result.page ≡ 0) × ((a : Roomy r out.old) → Laid a.xs out.old out.new r result) }
{
    put_header(out, r);
    Place {
        page: 0,
        start: 0,
        before: 0,
    }
}

// Writes a page, whose 2^e counts stand in counts from index from on, zeros beyond the end: its start bit into the table, its root and its
// tree into the code. Answers the place of the next page. The counts come with an index, as the tree's writer takes them: a page may begin
// behind their end and is zeros then, which a slice from there on could not be.
pub fn put_page(out: &mut [u8], r: Layout, at: Place, counts: &[u32], from: usize) -> Place
    requires { Handed r at counts.now from out.old }
    ensures { (result.page ≡ at.page + 1)
        × ((a : Handed r at counts.now from out.old) → Laid a.xs a.first out.new r result) }
{
    let m = reserve::power(r.e) as usize;
    let w = reserve::digits_of(r.total);
    let s = sum_of(counts, from, m);
    let own = reserve::reserve_of(r.e, s);
    let root = at.before + s;
    let tree = at.start + (w as usize);
    put::<4>(out, table_at(r.table, at.page as u64), at.start as u64);
    put_field(out, r.code + at.start, w, root);
    tree_write::write(out, r.code + tree, r.e, counts, from, s, own);
    Place {
        page: at.page + 1,
        start: tree + own,
        before: root,
    }
}

// Writes the pages of block k of 256 hours, taken as image_merge and image_block take a block's: a function for them would ask the bounds
// of e and k once more. The counts are the block's, and at is the place of its first page. Answers the place of the next block's.
pub fn put_block(out: &mut [u8], r: Layout, k: usize, at: Place, counts: &[u32; 256]) -> Place
    requires { Blocked r k at counts.now out.old }
    ensures { (result.page ≡ min (2 ^ (8 - r.e) * (k + 1)) r.pages)
        × ((a : Blocked r k at counts.now out.old) → Laid a.xs a.first out.new r result) }
{
    let m = reserve::power(r.e) as usize;
    let many = reserve::power(8 - r.e) as usize;
    let last = (many * (k + 1)).min(r.pages);
    let mut next = at;
    for page in at.page..last {
        next = put_page(out, r, next, counts, m * page - 256 * k);
    }
    next
}

// Ends an image that has all its pages: the bits behind the code are zeros to the end of the last byte.
pub fn end(out: &mut [u8], r: Layout)
    requires { Filled r out.old }
    ensures { (a : Filled r out.old) → out.new ≡ splice a.first 0 (image r.e a.xs) }
{
    let spare = r.bits.next_multiple_of(8) - r.bits;
    clear_bits(out, r.code + r.bits, spare);
}
