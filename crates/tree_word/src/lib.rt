// Four or eight counts out of the bits of one word, at whose high end their tree stands. What small sums need is looked up in a table that
// is lent: any table with `Sums` serves. Counts go into one array of 256 from an index on that leaves room for them, here and in the crates
// above: the array goes down by one thin pointer, and a part of it would be two words.
#![tactic(auto)]

ghost use Rattle.std.specs.Prelude.{true, ◌≡◌, ℕ, ◌+◌, ◌≤◌, ◌<◌, ◌++◌, replicate};
ghost use Rattle.lists.specs.Lists.{splice};
ghost use Rattle.bits.specs.Bits.{field};
ghost use Rattle.reserve.specs.Reserve.{digits, reserve};
ghost use Rattle.tree.specs.Read.{counts};
ghost use Rattle.tree.specs.Code.Exact.{exact};

use bits_field::front;
use reserve::digits_of;
use sum_table::SumTable;

// A word, at whose high end the code of 2^H counts with this sum stands. Its two words by value stay in registers.
#[derive(Clone, Copy)]
pub struct Word<const H: u32> {
    pub bits: u64,
    pub sum: u64,
    ghost code: { exact H sum (field 64 bits) 0 ≡ true },
}

// Puts n zeros into out from index from on.
pub fn zeros(out: &mut [u32; 256], from: usize, n: usize)
    requires { (from + n ≤ 256) }
    ensures { out.new ≡ splice out.old from (replicate n 0) }
{
    out[from..from + n].fill(0);
}

// A word's halves, of 2^K counts each: the left one stands behind the left sum, the right one behind the bits that the left one owns, which
// `own` says. A sum below 256 has its digits in the table.
pub fn halves<const H: u32, const K: u32, R: Fn(u64) -> u32>(
    w: Word<H>,
    table: &SumTable,
    own: R,
) -> (Word<K>, Word<K>)
    requires whole { (H ≡ K + 1) × (reserve H w.sum ≤ 57) × (w.sum < 256) }
    requires own { (x : ℕ) → x ≤ w.sum → R.pre own x }
    requires own_is { (x y : ℕ) → x ≤ w.sum → R.post own x y → y ≡ reserve K x }
    ensures sums { result.0.sum + result.1.sum ≡ w.entry.sum }
    ensures counts { counts H w.entry.sum (field 64 w.entry.bits) 0
        ≡ counts K result.0.sum (field 64 result.0.bits) 0 ++ counts K result.1.sum (field 64 result.1.bits) 0 }
{
    let t = table.digits(w.sum);
    let left = front::part(w.bits, 0, t);
    let k = t + own(left);
    let first = Word {
        bits: w.bits << t,
        sum: left,
    };
    let second = Word {
        bits: w.bits << k,
        sum: w.sum - left,
    };
    (first, second)
}

// The four counts of a word, where `width` says how many digits a sum has that is no more than w.sum: 19 at most, so that the three fields,
// the left sum and behind it the left count of each pair, have 57 bits at most. The counts are put one by one: an array that is copied in
// is no plainer.
fn four_by<F: Fn(u64) -> u32>(w: Word<2>, width: F, out: &mut [u32; 256], from: usize)
    requires few { (digits w.sum ≤ 19) × (from + 4 ≤ 256) }
    requires width { (x : ℕ) → x ≤ w.sum → F.pre width x }
    requires width_is { (x t : ℕ) → x ≤ w.sum → F.post width x t → t ≡ digits x }
    ensures { out.new ≡ splice out.old from (counts 2 w.sum (field 64 w.bits) 0) }
{
    let t = width(w.sum);
    let left = front::part(w.bits, 0, t);
    let right = w.sum - left;
    let f = width(left);
    let g = width(right);
    let first = front::part(w.bits, t, f);
    let third = front::part(w.bits, t + f, g);
    out[from] = first as u32;
    out[from + 1] = (left - first) as u32;
    out[from + 2] = third as u32;
    out[from + 3] = (right - third) as u32;
}

// The four counts of a word.
pub fn four(w: Word<2>, out: &mut [u32; 256], from: usize)
    requires { (digits w.sum ≤ 19) × (from + 4 ≤ 256) }
    ensures { out.new ≡ splice out.old from (counts 2 w.sum (field 64 w.bits) 0) }
{
    four_by(w, digits_of, out, from);
}

// The same of a sum that the table has.
fn four_small(w: Word<2>, table: &SumTable, out: &mut [u32; 256], from: usize)
    requires { (w.sum < 256) × (from + 4 ≤ 256) }
    ensures { out.new ≡ splice out.old from (counts 2 w.sum (field 64 w.bits) 0) }
{
    four_by(w, |x| table.digits(x), out, from);
}

// The eight counts of a word with a sum below 256, which own 52 bits at most.
#[tactic(auto, using(tree::proofs::OneWord::eight_fits))]
pub fn eight_of(w: Word<3>, table: &SumTable, out: &mut [u32; 256], from: usize)
    requires { (w.sum < 256) × (from + 8 ≤ 256) }
    ensures { out.new ≡ splice out.old from (counts 3 w.sum (field 64 w.bits) 0) }
{
    let (left, right) = halves(w, table, |x| table.reserve_four(x));
    four_small(left, table, out, from);
    four_small(right, table, out, from + 4);
}

// The same, where a sum of 0 is told first. The compiler puts this test where it is called, so that empty eights need no call.
pub fn eight(w: Word<3>, table: &SumTable, out: &mut [u32; 256], from: usize)
    requires { (w.sum < 256) × (from + 8 ≤ 256) }
    ensures { out.new ≡ splice out.old from (counts 3 w.sum (field 64 w.bits) 0) }
{
    if w.sum == 0 {
        zeros(out, from, 8);
        return;
    }
    eight_of(w, table, out, from);
}
