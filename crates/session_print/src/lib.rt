// The line that answers a line. It is put at a place of a slice by hand: write! promises nothing of the bytes, a Cursor answers a Result
// where nothing can fail, and a String needs a heap.
#![tactic(auto)]

ghost use Rattle.std.specs.Prelude.{◌≡◌, [], ◌∷◌, ◌++◌, ◌+◌, ◌≤◌, ◌<◌, length, drop};
ghost use Rattle.lists.specs.Lists.{splice};
ghost use Rattle.session_print.specs.Printed.{decimal, Prints};

use itoa::Buffer;

// Refused holds any number, and no Refusal, since print promises its line for every number.
#[derive(Clone, Copy)]
pub enum Reply {
    Number(u64),
    Done,
    Refused(u32),
    Unknown,
}

// Puts text at a place of out, and answers the place behind it.
fn put(out: &mut [u8], at: usize, text: &[u8]) -> usize
    requires { at + length text.now ≤ length out.old }
    ensures end { result ≡ at + length text.now }
    ensures bytes { out.new ≡ splice out.old at text.now }
{
    let end = at + text.len();
    out[at..end].copy_from_slice(text);
    end
}

// Puts a number's digits and a line end at a place of out, and answers the place behind them.
fn put_number(out: &mut [u8], at: usize, n: u64) -> usize
    requires { at + 21 ≤ length out.old }
    ensures end { result ≡ at + length (decimal n ++ (10 ∷ [])) }
    ensures bytes { out.new ≡ splice out.old at (decimal n ++ (10 ∷ [])) }
{
    let mut buffer = Buffer::new();
    let digits = buffer.format(n).as_bytes();
    let end = put(out, at, digits);
    put(out, end, b"\n")
}

// Puts the reply's line at a place of out, and answers the place behind it.
pub fn print(out: &mut [u8], at: usize, reply: Reply) -> usize
    requires { at + 32 ≤ length out.old }
    ensures { Prints reply out.old at result out.new }
{
    match reply {
        Reply::Number(n) => put_number(out, at, n),
        Reply::Done => put(out, at, b"ok\n"),
        Reply::Refused(k) => {
            let end = put(out, at, b"refused ");
            put_number(out, end, u64::from(k))
        }
        Reply::Unknown => put(out, at, b"line?\n"),
    }
}
