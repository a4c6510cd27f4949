// The counts of a tree that is some list's code. A recursion in which h falls, one level a call. It ends where one load has all the bits of
// 16 counts or more, or else at eights: out of one load where the table has their sum, else each four out of one, or, where that does not
// fit a word, each two. It reads over `&&[u8]` and writes into one array of 256, both by a thin pointer. `Coded` is all that it asks of a
// tree, whose place goes down as numbers: a search with one struct for them takes 5 to 13 hundredths longer (`tree`). Four functions have
// the same three lines, a root and both its halves: a closure for the half, with what it asks and ensures, is longer than they are.
#![tactic(auto)]

ghost use Rattle.std.specs.Prelude.{◌≡◌, ◌+◌, ◌≤◌, ◌<◌, ◌^◌};
ghost use Rattle.lists.specs.Lists.{splice};
ghost use Rattle.bits.specs.Bits.{bits, field};
ghost use Rattle.reserve.specs.Reserve.{digits, reserve};
ghost use Rattle.tree.specs.Read.{counts};
ghost use Rattle.tree_decode.specs.Code.Coded.{Coded};

use bits_field::front;
use reserve::power;
use sum_table::SumTable;
use tree::node::{one_word, root_by_shifts};
use tree_whole::{decode_word, fits};
use tree_word::{Word, eight, four};

// The word of the 2^H counts with sum s at bit at, which own 57 bits at most.
fn word<const H: u32>(b: &[u8], at: usize, s: u64) -> Word<H>
    requires { Coded H b.now at s × (reserve H s ≤ 57) }
    ensures sum { result.sum ≡ s }
    ensures counts { counts H result.sum (field 64 result.bits) 0 ≡ counts H s (bits b.now) at }
{
    Word {
        bits: front::load(b, at),
        sum: s,
    }
}

// The eight counts with sum s at bit at, each four out of a word of their own.
fn fours(b: &[u8], at: usize, s: u64, out: &mut [u32; 256], from: usize)
    requires { Coded 3 b.now at s × (digits s ≤ 19) × (from + 8 ≤ 256) }
    ensures { out.new ≡ splice out.old from (counts 3 s (bits b.now) at) }
{
    let r = root_by_shifts(b, at, 2, s).unwrap();
    four(word(b, r.first, r.left), out, from);
    four(word(b, r.second, s - r.left), out, from + 4);
}

// The two counts with sum s at bit at, put one by one as in `tree_word`.
fn two(b: &[u8], at: usize, s: u64, out: &mut [u32; 256], from: usize)
    requires { Coded 1 b.now at s × (from + 2 ≤ 256) }
    ensures { out.new ≡ splice out.old from (counts 1 s (bits b.now) at) }
{
    let left = root_by_shifts(b, at, 0, s).unwrap().left;
    out[from] = left as u32;
    out[from + 1] = (s - left) as u32;
}

// The four counts with sum s at bit at, each two out of a word of their own.
fn twos(b: &&[u8], at: usize, s: u64, out: &mut [u32; 256], from: usize)
    requires { Coded 2 b.now.now at s × (from + 4 ≤ 256) }
    ensures { out.new ≡ splice out.old from (counts 2 s (bits b.now.now) at) }
{
    let r = root_by_shifts(*b, at, 1, s).unwrap();
    two(*b, r.first, r.left, out, from);
    two(*b, r.second, s - r.left, out, from + 2);
}

// The eight counts with sum s at bit at. Most sums are the table's. Below 2^19 every four has its three fields in one word; above, no four
// is tried, for nothing foretells which have.
fn eights(b: &&[u8], table: &SumTable, at: usize, s: u64, out: &mut [u32; 256], from: usize)
    requires { Coded 3 b.now.now at s × (from + 8 ≤ 256) }
    ensures { out.new ≡ splice out.old from (counts 3 s (bits b.now.now) at) }
{
    if s < 256 {
        eight(word(*b, at, s), table, out, from);
        return;
    }
    if s < 524288 {
        fours(*b, at, s, out, from);
        return;
    }
    let r = root_by_shifts(*b, at, 2, s).unwrap();
    twos(b, r.first, r.left, out, from);
    twos(b, r.second, s - r.left, out, from + 4);
}

// The counts of a tree of eight counts at most, at bit at.
fn low_tree(
    b: &&[u8],
    table: &SumTable,
    at: usize,
    h: u32,
    s: u64,
    out: &mut [u32; 256],
    from: usize,
)
    requires { Coded h b.now.now at s × (h < 4) × (from + 2 ^ h ≤ 256) }
    ensures { out.new ≡ splice out.old from (counts h s (bits b.now.now) at) }
{
    match h {
        3 => eights(b, table, at, s, out, from),
        2 if one_word(h, s) => four(word(*b, at, s), out, from),
        2 => twos(b, at, s, out, from),
        1 => two(*b, at, s, out, from),
        _ => out[from] = s as u32,
    }
}

// The counts of a node of sixteen counts or more, at bit at, and below it.
fn decode_node(
    b: &&[u8],
    table: &SumTable,
    at: usize,
    h: u32,
    s: u64,
    out: &mut [u32; 256],
    from: usize,
)
    requires { Coded h b.now.now at s × (4 ≤ h) × (from + 2 ^ h ≤ 256) }
    ensures { out.new ≡ splice out.old from (counts h s (bits b.now.now) at) }
{
    if fits(h, s) {
        decode_word(front::load(*b, at), table, h, s, out, from);
        return;
    }
    let down = h - 1;
    let r = root_by_shifts(*b, at, down, s).unwrap();
    if down == 3 {
        eights(b, table, r.first, r.left, out, from);
        eights(b, table, r.second, s - r.left, out, from + 8);
        return;
    }
    let half = power(down) as usize;
    decode_node(b, table, r.first, down, r.left, out, from);
    decode_node(b, table, r.second, down, s - r.left, out, from + half);
}

// Puts the counts of the tree of 2^h counts with sum s at bit at, which is some list's code, into out from index from on. The table of
// small sums is lent: any table with `Sums` serves. A page with few coins needs no call of the recursion.
pub fn decode(
    b: &[u8],
    table: &SumTable,
    at: usize,
    h: u32,
    s: u64,
    out: &mut [u32; 256],
    from: usize,
)
    requires code { Coded h b.now at s }
    requires room { from + 2 ^ h ≤ 256 }
    ensures { out.new ≡ splice out.old from (counts h s (bits b.now) at) }
{
    if fits(h, s) {
        decode_word(front::load(b, at), table, h, s, out, from);
        return;
    }
    if h < 4 {
        low_tree(&b, table, at, h, s, out, from);
        return;
    }
    decode_node(&b, table, at, h, s, out, from);
}
