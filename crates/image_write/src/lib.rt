// Writing a frozen image of a list: its length, and its bytes into a buffer. Every refusal is tested before a byte is written.
#![tactic(auto)]

mod plan;
mod put;

ghost use Rattle.std.specs.Prelude.{◌≡◌};
ghost use Rattle.answers.specs.Image.{told};
ghost use Rattle.image.specs.Calls.{length_call, result_of, write_call};

use crate::plan::layout_of;
use crate::put::put_image;
use answers::refusal::Refusal;
use image_plan::{room, size};

// The length in bytes of the image of counts.
pub fn length(counts: &[u32], e: u32) -> Result<u64, Refusal>
    ensures { told result ≡ length_call e counts.now }
{
    let r = layout_of(counts, e)?;
    Ok(size(r))
}

// Writes the image of counts to the start of out, and no byte beyond it.
pub fn write(counts: &[u32], e: u32, out: &mut [u8]) -> Result<u64, Refusal>
    ensures { result_of result out.new ≡ write_call e counts.now out.old }
{
    let r = layout_of(counts, e)?;
    let n = room(r, out.len())?;
    put_image(out, counts, r);
    Ok(n)
}
