// An image put into a buffer block by block of 256 hours, whatever the blocks are read from.
ghost use Rattle.std.specs.Prelude.{List, ℕ, ◌≡◌, ◌*◌, ◌<◌, length};
ghost use Rattle.lists.specs.Lists.{splice, window};
ghost use Rattle.image.specs.Image.{image};
ghost use Rattle.image_put.specs.Code.Writing.{Room};

use crate::{begin, end, put_block};
use image_plan::Layout;

// What has a list and hands it over in blocks of 256 hours.
pub trait Blocks {
    ghost list: { Self → List ℕ };

    // Puts the counts of block k into an array, zeros behind the list's end.
    fn block(&self, k: usize, counts: &mut [u32; 256])
        requires { 256 * k < length (list self.now) }
        ensures { counts.new ≡ window (list self.now) (256 * k) 256 };
}

// Writes the image of the list that a source has.
pub fn put_blocks<B: Blocks>(out: &mut [u8], r: Layout, source: &B)
    requires { Room (B.list source.now) r out.old }
    ensures { out.new ≡ splice out.old 0 (image r.e (B.list source.now)) }
{
    let mut counts = [0u32; 256];
    let mut at = begin(out, r);
    for k in 0..(r.hours as usize).div_ceil(256) {
        source.block(k, &mut counts);
        at = put_block(out, r, k, at, &counts);
    }
    end(out, r);
}
