// The image of a sound store's list, put into a buffer that has room for it.
#![tactic(auto)]

mod block;

ghost use Rattle.std.specs.Prelude.{◌≡◌};
ghost use Rattle.lists.specs.Lists.{splice};
ghost use Rattle.image.specs.Image.{image};
ghost use Rattle.store.specs.Reading.{list_in};
ghost use Rattle.image_put.specs.Code.Writing.{Room};

use crate::block::Listed;
use image_plan::Layout;
use image_put::blocks::put_blocks;
use store::header::Header;
use store::sound::Sound;
use sum_table::SumTable;

// Writes the image, block by block.
pub fn put_image(out: &mut [u8], s: Sound, r: Layout)
    requires { Room (list_in s.bytes.now) r out.old }
    ensures { out.new ≡ splice out.old 0 (image r.e (list_in s.entry.bytes.now)) }
{
    let list = Listed {
        store: s,
        pages: Header::of(s.bytes).pages,
        table: SumTable::new(),
    };
    put_blocks(out, r, &list);
}
