// A shift carried out: looked up, sized up, and only then written.
ghost use Rattle.std.specs.Prelude.{◌≡◌, length};
ghost use Rattle.answers.specs.Store.{told_change};
ghost use Rattle.store.specs.Reading.{list_in};
ghost use Rattle.move_plan.specs.Code.Plan.{Shiftable, shifted};
ghost use Rattle.live_move.specs.Code.Carry.{Carried};

use answers::refusal::Refusal;
use answers::store::Change;
use move_pages::{Plan, move_all};
use move_plan::cells::{Cells, size_up};
use move_plan::leaving::look_up;
use move_plan::shift::Shift;
use store::header::{Header, cells_from};

// Carries a shift out in a sound store, whose number of hours becomes the one given. The counts that leave the pages and the pages' cells
// are kept, so that a page that has moved does not spoil the next one's, and each page's cells are worked out once for its old sum and once
// for its new one. Three arrays hold them: one of structs would take 8 KiB of stack in place of 6, and insert is at 11,294 of the 12,288
// bytes that HOURLOG_MOVE_STACK names.
pub(crate) fn carry_out(s: &mut [u8], m: Shift, hours: usize) -> Result<Change, Refusal>
    requires { Shiftable s.old m × (hours ≡ length (shifted m (list_in s.old))) }
    ensures { Carried s.old m (told_change result) s.new }
{
    let head = Header::of(s);
    let mut leaving = [0u32; Header::MAX_PAGES];
    let mut old = [0u8; Header::MAX_PAGES];
    let mut new = [0u8; Header::MAX_PAGES];
    look_up(s, m, &mut leaving, &mut old);
    let Cells { had, asked } = size_up(s, m, &leaving, &old, &mut new);
    if had + head.free < asked {
        return Err(Refusal::Cells);
    }
    let plan = Plan {
        base: cells_from(head.pages),
        shift: m,
        leaving: &leaving,
        old: &old,
        new: &new,
        all: Header::HOURS * head.pages,
    };
    move_all(s, plan, hours);
    Ok(Change::between(had, asked))
}
