// The busiest stretch of an image: the run of so many hours that holds the most coins.
#![tactic(auto)]

mod window;

ghost use Rattle.answers.specs.Stretch.{told};
ghost use Rattle.image_busiest.specs.Busiest.{BusiestCall};

use crate::window::best_window;
use answers::image::Stretch;
use answers::refusal::Refusal;
use image::opened::Accepted;
use image_check::open_accepted;
use sum_table::SumTable;

// The run of k hours of an accepted image with the most coins.
fn among(image: &Accepted, k: u64) -> Result<Stretch, Refusal>
    ensures { BusiestCall image.now.bytes.now k (told result) }
{
    if k == 0 || image.head.hours < k {
        return Err(Refusal::Stretch);
    }
    let w = best_window(image, &SumTable::new(), k);
    Ok(w.best)
}

// The run of exactly k successive hours with the largest sum, the earliest on a tie: its first hour and its sum.
pub fn busiest(s: &[u8], k: u32) -> Result<Stretch, Refusal>
    ensures { BusiestCall s.now k (told result) }
{
    let image = open_accepted(s)?;
    among(&image, u64::from(k))
}
