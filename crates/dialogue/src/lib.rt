// A session between a read and a write: a chunk of the input goes in, the lines to write come out.
#![tactic(auto)]

ghost use Rattle.std.specs.Prelude.{List, [], ◌∷◌, ◌≡◌, ℕ, ◌+◌, ◌*◌, ◌≤◌, length};
ghost use Rattle.dialogue.specs.Dialogue.{start as first};
ghost use Rattle.dialogue.specs.Feed.{Closes, Feeds, stand};
ghost use Rattle.dialogue.specs.Code.Answer.{Answers};

pub use replies::ROOM;
use respond::respond;
use session::Command;
use session_input::Gathered;

// Where a session stands: how many bytes of the store's buffer are the store, how many bytes are held of the line that is begun, and how
// many bytes of the output are to be written. The line stays beside it, for close takes a line of any length, and so do the store and the
// output: a function that is lent a struct with a &mut slice has to ensure that the slice's reference stays the same, which is one clause
// in place of the one that asks for room.
#[derive(Clone, Copy)]
pub struct Standing {
    pub used: usize,
    pub held: usize,
    pub said: usize,
}

// Where every session starts.
pub fn start() -> Standing
    ensures { (store line : List ℕ) → stand result store line ≡ first }
{
    Standing {
        used: 0,
        held: 0,
        said: 0,
    }
}

// Answers a line, given what it asks. The line is held no more.
fn answer(store: &mut [u8], standing: Standing, asked: Option<Command>, out: &mut [u8]) -> Standing
    requires store_room { ROOM ≤ length store.old }
    requires out_room { standing.said + 32 ≤ length out.old }
    ensures { Answers asked standing store.old out.old result store.new out.new }
{
    let response = respond(store, standing.used, asked);
    let reply = response.reply;
    let said = session_print::print(out, standing.said, reply);
    Standing {
        used: response.used,
        held: 0,
        said,
    }
}

// Takes one byte of the input, which may end a line.
fn take_byte(
    store: &mut [u8],
    line: &mut [u8],
    standing: Standing,
    byte: u8,
    out: &mut [u8],
) -> Standing
    requires store_room { ROOM ≤ length store.old }
    requires line_room { length line.old ≡ 41 }
    requires out_room { standing.said + 32 ≤ length out.old }
    ensures { Feeds (byte ∷ []) (stand standing store.old line.old) standing.said out.old (stand result store.new line.new) result.said out.new }
{
    match session_input::gather(line, standing.held, byte) {
        Gathered::More(held) => Standing {
            used: standing.used,
            held,
            said: standing.said,
        },
        Gathered::Whole(asked) => answer(store, standing, asked, out),
    }
}

// Takes a chunk of the input, and puts the replies to the lines that end in it at the start of out. What stood there is taken to be
// written.
pub fn feed(
    store: &mut [u8],
    line: &mut [u8],
    standing: Standing,
    chunk: &[u8],
    out: &mut [u8],
) -> Standing
    requires store_room { ROOM ≤ length store.old }
    requires line_room { length line.old ≡ 41 }
    requires out_room { 32 * length chunk.now ≤ length out.old }
    ensures { Feeds chunk.now (stand standing store.old line.old) 0 out.old (stand result store.new line.new) result.said out.new }
{
    let mut next = Standing {
        used: standing.used,
        held: standing.held,
        said: 0,
    };
    for byte in chunk {
        next = take_byte(store, line, next, *byte, out);
    }
    next
}

// The input's end, where the last line may lack its line end. Answers how many bytes of out are to be written.
pub fn close(store: &mut [u8], line: &[u8], standing: Standing, out: &mut [u8]) -> usize
    requires store_room { ROOM ≤ length store.old }
    requires out_room { 32 ≤ length out.old }
    ensures { Closes (stand standing store.old line.now) result out.new }
{
    let Some(asked) = session_input::finish(line, standing.held) else {
        return 0;
    };
    let here = Standing {
        used: standing.used,
        held: 0,
        said: 0,
    };
    let there = answer(store, here, asked, out);
    there.said
}
