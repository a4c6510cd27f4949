// Answers a command of the session program.
#![tactic(auto)]

ghost use Rattle.std.specs.Prelude.{◌≤◌, length};
ghost use Rattle.replies.specs.Code.Respond.{Responds};

use replies::{ROOM, Response, renew, response_to};
use session::Command;
use session_print::Reply;

// The reply to a line, given what it asks, and how many of the buffer's bytes are the store then.
pub fn respond(store: &mut [u8], used: usize, asked: Option<Command>) -> Response
    requires { ROOM ≤ length store.old }
    ensures { Responds asked store.old used result store.new }
{
    // the promise holds of any used
    let n = used.min(store.len());
    let Some(command) = asked else {
        return Response {
            used: n,
            reply: Reply::Unknown,
        };
    };
    match command {
        Command::Fresh(p, c) => renew(store, n, p, c),
        Command::Append(v) => response_to(n, live::append(&mut store[..n], v)),
        Command::Set(i, v) => response_to(n, live::set(&mut store[..n], i, v)),
        Command::Count(i) => response_to(n, live::count(&store[..n], i)),
        Command::Reading(i) => response_to(n, live::reading(&store[..n], i)),
        Command::Reach(p) => response_to(n, live::reach(&store[..n], p)),
        Command::Day(d) => response_to(n, live::day(&store[..n], d, &[])),
        Command::Free => response_to(n, live::free(&store[..n])),
    }
}
