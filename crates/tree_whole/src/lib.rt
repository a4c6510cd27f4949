// A tree of 16 counts or more whose bits one word has.
#![tactic(auto)]

mod sparse;

ghost use Rattle.std.specs.Prelude.{true, ◌≡◌, ◌+◌, ◌≤◌, ◌^◌};
ghost use Rattle.lists.specs.Lists.{splice};
ghost use Rattle.bits.specs.Bits.{field};
ghost use Rattle.tree.specs.Read.{counts};
ghost use Rattle.tree.specs.Code.Exact.{exact};
ghost use Rattle.tree_whole.specs.Code.FitsWord.{FitsWord};

use crate::sparse::sixteen;
use bits_field::front;
use reserve::power;
use sum_table::SumTable;
use tree_word::{Word, zeros};

// Whether a tree of 2^h counts with sum s is one of 16, 32 or 64 that own 57 bits at most. A sum one higher owns more. Most sums are told
// by the first test.
pub fn fits(h: u32, s: u64) -> bool
    ensures { result ≡ true → FitsWord h s }
{
    s < 37
        && match h {
            4 => true,
            5 => s < 17,
            6 => s < 13,
            _ => false,
        }
}

// All 2^h counts with sum s. A recursion in which h falls to 4, or which ends at a sum of 0: so the word and its sum are no `Word`, whose
// height is a constant, and the step to both halves stands here again. FitsWord is what `fits` has just shown.
pub fn decode_word(w: u64, table: &SumTable, h: u32, s: u64, out: &mut [u32; 256], from: usize)
    requires { FitsWord h s × (exact h s (field 64 w) 0 ≡ true) × (from + 2 ^ h ≤ 256) }
    ensures { out.new ≡ splice out.old from (counts h s (field 64 w) 0) }
{
    if h == 4 {
        sixteen(Word { bits: w, sum: s }, table, out, from);
        return;
    }
    if s == 0 {
        zeros(out, from, power(h) as usize);
        return;
    }
    let down = h - 1;
    let t = table.digits(s);
    let left = front::part(w, 0, t);
    decode_word(w << t, table, down, left, out, from);
    let k = t + table.reserve(down, left);
    decode_word(
        w << k,
        table,
        down,
        s - left,
        out,
        from + power(down) as usize,
    );
}
