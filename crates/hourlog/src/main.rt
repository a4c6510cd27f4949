// The session program: reads standard input a chunk at a time, and writes the replies to the lines that end in a chunk before it reads on.
#![tactic(auto)]

ghost use Rattle.std.specs.Prelude.{◌≤◌, length};

use dialogue::ROOM;
use std::io::Read;

// The bytes of a chunk, and of its replies: a byte of the input gives at most 32 to write.
const CHUNK: usize = 4096;

const REPLIES: usize = 32 * CHUNK;

// Writes replies, or says why not.
fn write<R: Print>(rt: &R, text: &[u8]) -> Result<(), &'static str> {
    rt.write_all(text)
        .map_err(|_| "hourlog: standard output cannot be written")
}

// Reads to the input's end, and answers the last line, or says why it stopped before.
fn run<R: Input + Print>(rt: &R, store: &mut [u8], out: &mut [u8]) -> Result<(), &'static str>
    requires store_room { ROOM ≤ length store.old }
    requires out_room { REPLIES ≤ length out.old }
{
    let mut input = rt.reader();
    let mut line = [0u8; 41];
    let mut chunk = [0u8; CHUNK];
    let mut standing = dialogue::start();
    // more turns than any input has: they bound the loop, so that it is known to end
    for _ in 0..u64::MAX {
        let n = input
            .read(&mut chunk)
            .map_err(|_| "hourlog: standard input cannot be read")?;
        if n == 0 {
            break;
        }
        standing = dialogue::feed(store, &mut line, standing, &chunk[..n], out);
        let said = standing.said;
        write(rt, &out[..said])?;
    }
    let said = dialogue::close(store, &line, standing, out);
    write(rt, &out[..said])
}

// The program's exit status is always 0: that it could not read or write, it says on standard error.
fn main(rt: HostRuntime) {
    let mut store = [0u8; ROOM];
    let mut out = [0u8; REPLIES];
    if let Err(why) = run(&rt, &mut store, &mut out) {
        let _ = rt.eprintln(why);
    }
}
