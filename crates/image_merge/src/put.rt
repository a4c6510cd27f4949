// The sums of two images as a list that is handed over block by block.
ghost use Rattle.std.specs.Prelude.{true, ◌≡◌};
ghost use Rattle.lists.specs.Counts.{max_count, within};
ghost use Rattle.image_merge.specs.Code.{sums_of};

use crate::block::Pair;
use image_put::blocks::Blocks;

// Two images whose sums are all counts, as the plan has found.
#[derive(Clone, Copy)]
pub(crate) struct Sums<'a> {
    pub pair: &'a Pair<'a>,
    ghost counts: { within max_count (sums_of pair.now) ≡ true },
}

impl Blocks for Sums<'_> {
    ghost list = { λ s. sums_of s.pair.now };

    fn block(&self, k: usize, counts: &mut [u32; 256]) {
        self.pair.block(k, counts).unwrap();
    }
}
