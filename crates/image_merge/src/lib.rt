// The image of the hour-by-hour sums of two images. The sums stand nowhere as one list: block by block of 256 hours they are added, once
// for the plan and once for the bytes.
#![tactic(auto)]

mod block;
mod plan;
mod put;

ghost use Rattle.std.specs.Prelude.{◌≡◌, ◌≤◌};
ghost use Rattle.image.specs.Calls.{result_of};
ghost use Rattle.image_merge.specs.Code.{merged};
ghost use Rattle.image_merge.specs.Merge.{merge_call};

use crate::block::Pair;
use crate::put::Sums;
use answers::refusal::Refusal;
use image_check::open_accepted;
use image_plan::room;
use image_put::blocks::put_blocks;
use sum_table::SumTable;

// Writes the image of the sums of two accepted images.
fn write_sums(pair: &Pair, e: u32, out: &mut [u8]) -> Result<u64, Refusal>
    requires { (2 ≤ e) × (e ≤ 8) }
    ensures { result_of result out.new ≡ merged e pair.now out.old }
{
    let r = pair.layout(e)?;
    let n = room(r, out.len())?;
    put_blocks(out, r, &Sums { pair });
    Ok(n)
}

// Writes the image of the hour-by-hour sums of two images to the start of out, and no byte beyond it. The page size is tested before the
// images are, and again by the plan, which has other callers.
pub fn merge(a: &[u8], b: &[u8], e: u32, out: &mut [u8]) -> Result<u64, Refusal>
    ensures { result_of result out.new ≡ merge_call e a.now b.now out.old }
{
    if e < 2 || 8 < e {
        return Err(Refusal::PageSize);
    }
    let first = open_accepted(a)?;
    let second = open_accepted(b)?;
    let pair = Pair {
        a: &first,
        b: &second,
        table: SumTable::new(),
    };
    write_sums(&pair, e, out)
}
