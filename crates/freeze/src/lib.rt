// The frozen image of a live store's list. The list stands nowhere as one: its pages of 2^e counts are handed to the writer of images by
// blocks of 256 hours, four pages of the store.
#![tactic(auto)]

ghost use Rattle.std.specs.Prelude.{◌≡◌};
ghost use Rattle.store.specs.Reading.{list_in};
ghost use Rattle.image.specs.Calls.{result_of, write_call};
ghost use Rattle.freeze.specs.Freeze.{freeze_call};

use answers::refusal::Refusal;
use freeze_plan::layout_of;
use freeze_put::put_image;
use image_plan::room;
use soundness::sound;
use store::sound::Sound;

// Writes the image of a sound store's list.
fn freeze_list(s: Sound, e: u32, out: &mut [u8]) -> Result<u64, Refusal>
    ensures { result_of result out.new ≡ write_call e (list_in s.entry.bytes.now) out.old }
{
    let r = layout_of(s, e)?;
    let n = room(r, out.len())?;
    put_image(out, s, r);
    Ok(n)
}

// Writes the image of a store's list to the start of out, and no byte beyond it.
pub fn freeze(s: &[u8], e: u32, out: &mut [u8]) -> Result<u64, Refusal>
    ensures { result_of result out.new ≡ freeze_call e s.now out.old }
{
    freeze_list(sound(s)?, e, out)
}
