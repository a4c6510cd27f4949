// Sixteen counts with few coins out of one word: eight of them with two coins at most are looked up.
ghost use Rattle.std.specs.Prelude.{◌≡◌, ◌+◌, ◌≤◌, ◌<◌};
ghost use Rattle.lists.specs.Lists.{splice};
ghost use Rattle.bits.specs.Bits.{field};
ghost use Rattle.sum_table.specs.Code.Sums.{quarters};
ghost use Rattle.tree.specs.Read.{counts};
ghost use Rattle.tree_whole.specs.Code.FitsWord.{FitsWord};

use bits_field::front;
use sum_table::SumTable;
use tree_word::{Word, eight_of, halves, zeros};

// Four counts of two bits each, out of a byte. An array that is copied in is no plainer than four entries.
fn spread(x: u8, out: &mut [u32; 256], from: usize)
    requires { (from + 4 ≤ 256) }
    ensures { out.new ≡ splice out.old from (quarters x) }
{
    let four = u32::from(x);
    out[from] = four % 4;
    out[from + 1] = four / 4 % 4;
    out[from + 2] = four / 16 % 4;
    out[from + 3] = four / 64 % 4;
}

// The eight counts of a word with a sum below 3, looked up by their code, which has three bits a coin.
fn eight_looked_up(w: Word<3>, table: &SumTable, out: &mut [u32; 256], from: usize)
    requires { (w.sum < 3) × (from + 8 ≤ 256) }
    ensures { out.new ≡ splice out.old from (counts 3 w.sum (field 64 w.bits) 0) }
{
    let v = front::part(w.bits, 0, 3 * (w.sum as u32));
    let few = table.few(w.sum, v);
    spread(few.left, out, from);
    spread(few.right, out, from + 4);
}

// The eight counts of a word with a sum below 256 among few coins: most have two at most, and which of these sums it is nothing foretells,
// so that no jump asks for it.
fn eight_sparse(w: Word<3>, table: &SumTable, out: &mut [u32; 256], from: usize)
    requires { (w.sum < 256) × (from + 8 ≤ 256) }
    ensures { out.new ≡ splice out.old from (counts 3 w.sum (field 64 w.bits) 0) }
{
    if w.sum < 3 {
        eight_looked_up(w, table, out, from);
        return;
    }
    eight_of(w, table, out, from);
}

// The sixteen counts of a word, which own 57 bits at most.
pub(crate) fn sixteen(w: Word<4>, table: &SumTable, out: &mut [u32; 256], from: usize)
    requires { FitsWord 4 w.sum × (from + 16 ≤ 256) }
    ensures { out.new ≡ splice out.old from (counts 4 w.sum (field 64 w.bits) 0) }
{
    if w.sum == 0 {
        zeros(out, from, 16);
        return;
    }
    let (left, right) = halves(w, table, |x| table.reserve(3, x));
    eight_sparse(left, table, out, from);
    eight_sparse(right, table, out, from + 8);
}
