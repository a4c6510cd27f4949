// What a command of the session program prints, and what it does to the store: the answers of calls, and a fresh store. The store is the
// first bytes of a buffer: a number beside it says how many, for a fresh store may have more than the one that is there.
#![tactic(auto)]

ghost use Rattle.std.specs.Prelude.{◌≡◌, ◌≤◌, length, min};
ghost use Rattle.store.specs.Layout.{size};
ghost use Rattle.store.specs.Limits.{max_cells, max_pages};
ghost use Rattle.session_print.specs.declared.Reply.{Reply};
ghost use Rattle.session_print.specs.declared.Reply.TheVariants.{Done, Number};
ghost use Rattle.session.specs.declared.line.Command.TheVariants.{Fresh};
ghost use Rattle.replies.specs.Code.Respond.{Responds, reply_of};

use answers::refusal::Refusal;
use answers::store::Change;
use fresh::fresh;
use session_print::Reply;
use store::header::Header;

// The bytes of a store of as many pages and cells as a store may have: the buffer of a session has room for any.
pub const ROOM: usize = Header::SIZE
    + Header::ENTRY * Header::MAX_PAGES
    + Header::CELL * Header::MAX_CELLS;

// The reply, and how many of the buffer's bytes are the store.
#[derive(Clone, Copy)]
pub struct Response {
    pub used: usize,
    pub reply: Reply,
}

// What an accepted call prints, by what it answers. No From, since Reply and the answers are of other crates.
pub trait Prints {
    ghost prints: { Self → Reply };

    fn reply(self) -> Reply
        ensures { result ≡ prints self };
}

// A call that changes the store that is there.
impl Prints for Change {
    ghost prints = { λ _. Done };

    fn reply(self) -> Reply {
        // the cells that it took and gave back are not printed
        Reply::Done
    }
}

// A question.
impl Prints for u64 {
    ghost prints = { λ n. Number n };

    fn reply(self) -> Reply {
        Reply::Number(self)
    }
}

// A fresh store.
impl Prints for () {
    ghost prints = { λ _. Done };

    fn reply(self) -> Reply {
        Reply::Done
    }
}

// The response to a call, by what it answers; used bytes are the store then.
pub fn response_to<T: Prints>(used: usize, answer: Result<T, Refusal>) -> Response
    ensures { (result.used ≡ used) × (result.reply ≡ reply_of T.prints answer) }
{
    let reply = match answer {
        Ok(x) => x.reply(),
        Err(r) => Reply::Refused(r.number()),
    };
    Response { used, reply }
}

// How many bytes a store of so many pages and cells has; of more than a store may have the most.
fn size_of(pages: u32, cells: u32) -> usize
    ensures bytes { result ≡ size (min pages max_pages) (min cells max_cells) }
    ensures most { result ≤ ROOM }
{
    let p = (pages as usize).min(Header::MAX_PAGES);
    let c = (cells as usize).min(Header::MAX_CELLS);
    Header::SIZE + Header::ENTRY * p + Header::CELL * c
}

// A fresh store in the place of the one that is there, which a refusal keeps.
pub fn renew(store: &mut [u8], used: usize, pages: u32, cells: u32) -> Response
    requires { ROOM ≤ length store.old }
    ensures { Responds (Some (Fresh pages cells)) store.old used result store.new }
{
    // of more pages or cells than a store may have fresh says so, whatever it is lent
    let n = size_of(pages, cells);
    let answer = fresh(&mut store[..n], pages, cells);
    response_to(if answer.is_ok() { n } else { used }, answer)
}
