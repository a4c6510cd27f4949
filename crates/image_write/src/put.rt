// A list's image, put into a buffer that has room for it.
ghost use Rattle.std.specs.Prelude.{◌≡◌};
ghost use Rattle.lists.specs.Lists.{splice};
ghost use Rattle.image.specs.Image.{image};
ghost use Rattle.image_put.specs.Code.Writing.{Room};

use image_plan::Layout;
use image_put::{begin, end, put_page};

// Writes the image of counts: page after page, each from its place in the list, which put_page takes, so that no chunks are cut.
pub(crate) fn put_image(out: &mut [u8], counts: &[u32], r: Layout)
    requires { Room counts.now r out.old }
    ensures { out.new ≡ splice out.old 0 (image r.e counts.now) }
{
    let m = reserve::power(r.e) as usize;
    let mut at = begin(out, r);
    for page in 0..r.pages {
        at = put_page(out, r, at, counts, m * page);
    }
    end(out, r);
}
