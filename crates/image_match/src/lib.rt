// The hours of a bag: a run of hours of an image with a given sum.
#![tactic(auto)]

mod find;

ghost use Rattle.answers.specs.Bag.{told};
ghost use Rattle.image_match.specs.Match.{MatchCall};

use crate::find::find;
use answers::image::Run;
use answers::refusal::Refusal;
use image::opened::Accepted;
use image_check::open_accepted;
use sum_table::SumTable;

// The run of hours of an accepted image with sum q.
fn among(image: &Accepted, q: u64) -> Result<Option<Run>, Refusal>
    ensures { MatchCall image.now.bytes.now q (told result) }
{
    if q == 0 {
        return Err(Refusal::Bag);
    }
    if image.head.total < q {
        return Ok(None);
    }
    Ok(find(image, &SumTable::new(), q))
}

// A run of successive hours with sum exactly q: the earliest first hour, then the fewest hours; or none.
pub fn matching(s: &[u8], q: u64) -> Result<Option<Run>, Refusal>
    ensures { MatchCall s.now q (told result) }
{
    let image = open_accepted(s)?;
    among(&image, q)
}
