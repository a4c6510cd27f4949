// Two accepted images, and their sums block by block of 256 hours.
ghost use Rattle.std.specs.Prelude.{◌≤◌};
ghost use Rattle.image_merge.specs.Code.{Added, Summed, sums_of};

use answers::refusal::Refusal;
use image::opened::Accepted;
use image_block::unpack;
use sum_table::SumTable;

// Adds the counts of more to those in counts: refusal 3 at the first sum that is no count.
fn add(counts: &mut [u32; 256], more: &[u32; 256]) -> Result<(), Refusal>
    ensures { Added counts.old more.now counts.new result }
{
    // By an index, for behind a zip with iter_mut a proof knows no element.
    for (i, count) in more.iter().enumerate() {
        counts[i] = counts[i].checked_add(*count).ok_or(Refusal::Total)?;
    }
    Ok(())
}

// The two images, and the table of small sums.
#[derive(Clone, Copy)]
pub(crate) struct Pair<'a> {
    pub a: &'a Accepted<'a>,
    pub b: &'a Accepted<'a>,
    pub table: SumTable<'a>,
}

impl Pair<'_> {
    // Puts the sums of block k into an array: refusal 3 where one is no count.
    pub fn block(&self, k: usize, counts: &mut [u32; 256]) -> Result<(), Refusal>
        requires { k ≤ 255 }
        ensures { Summed (sums_of self.now) counts.new k result }
    {
        unpack(self.a, &self.table, k, counts);
        let mut more = [0u32; 256];
        unpack(self.b, &self.table, k, &mut more);
        add(counts, &more)
    }
}
