// The code of a tree of counts, written into bits. The bits are made 0 first and each field is then added to them, so that left-over bits
// need no thought and no reserve but a left half's is worked out. Place, height and sum as numbers: see `tree`. The counts are those from
// an index on, and not a slice from there: the index may be beyond the list's end, where zeros stand. A node's sum is worked out above it.
#![tactic(auto)]

ghost use Rattle.std.specs.Prelude.{◌≡◌, ◌+◌, ◌≤◌, ◌^◌, get_or};
ghost use Rattle.lists.specs.Lists.{splice, sum, window};
ghost use Rattle.bits.specs.Bits.{bits};
ghost use Rattle.reserve.specs.Reserve.{reserve as reserved};
ghost use Rattle.tree.specs.Tree.{tree};
ghost use Rattle.tree_write.specs.Code.Blank.{Blank};
ghost use Rattle.tree.specs.Code.Node.{Lies};

use bits_clear::clear_bits;
use bits_field::{add_field, put_field};
use bits_word::joined;
use reserve::{digits_of, reserve_of};
use tree::sums::sum_of;

// The count at index i, 0 beyond the end.
fn count_at(counts: &[u32], i: usize) -> u64
    ensures { result ≡ get_or counts.now i 0 }
{
    counts.get(i).map_or(0, |c| u64::from(*c))
}

// The lowest two levels: the tree of the four counts from index from on, whose sum s is not 0, into zero bits from bit at on. Its three
// fields have three times the digits of s at most, and are one where 57 bits hold them. Else each is put: one of the last two may have no
// bits.
fn four(out: &mut [u8], at: usize, counts: &[u32], from: usize, s: u64)
    requires lies { Lies out.old at 2 s × (s ≡ sum (window counts.now from 4)) × (from + 4 ≤ 2 ^ 62) × (1 ≤ s) }
    requires blank { Blank (bits out.old) at (reserved 2 s) }
    ensures { bits out.new ≡ splice (bits out.old) at (tree 2 (window counts.now from 4)) }
{
    let a = count_at(counts, from);
    let left = a + count_at(counts, from + 1);
    let c = count_at(counts, from + 2);
    let t = digits_of(s);
    let first = digits_of(left);
    let second = digits_of(s - left);
    if t <= 19 {
        let fields = joined(joined(left, first, a), second, c);
        add_field(out, at, t + first + second, fields);
        return;
    }
    let next = at + (t as usize);
    put_field(out, at, t, left);
    put_field(out, next, first, a);
    put_field(out, next + (first as usize), second, c);
}

// Writes the tree of the 2^h counts from index from on, whose sum is s, into zero bits from bit at on; zeros stand beyond the end of
// counts.
pub fn nodes(out: &mut [u8], at: usize, h: u32, counts: &[u32], from: usize, s: u64)
    requires lies { Lies out.old at h s × (s ≡ sum (window counts.now from (2 ^ h))) × (from + 2 ^ h ≤ 2 ^ 62) }
    requires blank { Blank (bits out.old) at (reserved h s) }
    ensures { bits out.new ≡ splice (bits out.old) at (tree h (window counts.now from (2 ^ h))) }
{
    if h == 0 || s == 0 {
        return;
    }
    if h == 2 {
        four(out, at, counts, from, s);
        return;
    }
    let down = h - 1;
    let half = reserve::power(down) as usize;
    let left = sum_of(counts, from, half);
    let t = digits_of(s);
    let first = at + (t as usize);
    let second = first + reserve_of(down, left);
    add_field(out, at, t, left);
    nodes(out, first, down, counts, from, left);
    nodes(out, second, down, counts, from + half, s - left);
}

// The same into any bits: exactly the tree's reserve, r bits, changes.
pub fn write(out: &mut [u8], at: usize, h: u32, counts: &[u32], from: usize, s: u64, r: usize)
    requires lies { Lies out.old at h s × (s ≡ sum (window counts.now from (2 ^ h))) × (from + 2 ^ h ≤ 2 ^ 62) }
    requires r_value { r ≡ reserved h s }
    ensures { bits out.new ≡ splice (bits out.old) at (tree h (window counts.now from (2 ^ h))) }
{
    clear_bits(out, at, r);
    nodes(out, at, h, counts, from, s);
}
