// Lines from the input's bytes. A buffer with room for more than 40 bytes is enough for lines of any length: a longer line is cut, and is
// still over 40 bytes.
#![tactic(auto)]

ghost use Rattle.std.specs.Prelude.{◌≡◌, take};
ghost use Rattle.session_input.specs.Lines.{Gathers, ends, last_commands};

use session::{Command, parse};

// What is gathered: so many bytes of a line, or a whole line, as what it asks, if anything. An Option or a ControlFlow would be no plainer:
// both are answers, and none is an error or an early end.
#[derive(Clone, Copy)]
pub enum Gathered {
    More(usize),
    Whole(Option<Command>),
}

// One more byte of the input, after len bytes of its line. The two are no struct, since the promise holds of any line and any len.
pub fn gather(line: &mut [u8], len: usize, byte: u8) -> Gathered
    ensures { Gathers line.old len byte result line.new }
{
    let held = len.min(line.len());
    if byte == b'\n' {
        return Gathered::Whole(parse(&line[..held]));
    }
    if held < line.len() {
        line[held] = byte;
        return Gathered::More(held + 1);
    }
    Gathered::More(held)
}

// The input's end, after len bytes of a line: these are the last line, if there are any, and it may ask nothing, as any line.
pub fn finish(line: &[u8], len: usize) -> Option<Option<Command>>
    ensures { last_commands result ≡ ends (take len line.now) }
{
    let held = len.min(line.len());
    if held == 0 {
        return None;
    }
    Some(parse(&line[..held]))
}
