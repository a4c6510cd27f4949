// The root of a tree: its left sum, and where its two subtrees start; and which small trees one word has.
ghost use Rattle.std.specs.Prelude.{true, ◌≡◌, ◌+◌, ◌≤◌, ◌<◌, ◌^◌};
ghost use Rattle.bits.specs.Bits.{bits};
ghost use Rattle.reserve.specs.Reserve.{digits, reserve as reserved};
ghost use Rattle.tree.specs.Code.Node.{Lies, Parted, Rooted};
ghost use Rattle.tree.specs.Code.InWord.{eight_limit};

use bits_field::front;
use reserve::{digits_of, reserve_of};

// A node that was read: its left sum, and where its two subtrees start.
#[derive(Clone, Copy)]
pub struct Split {
    pub left: u64,
    pub first: usize,
    pub second: usize,
}

// A node of height h + 1 at bit at, with sum s of t digits and left sum left; none where left is above s. Tested by <, as what is left of s
// is not asked for here.
fn node(at: usize, h: u32, s: u64, t: u32, left: u64) -> Option<Split>
    requires { (h ≤ 8) × (s < 1099511627776) × (t ≡ digits s) × (at + reserved (h + 1) s < 2 ^ 63) }
    ensures { Parted left at h s result }
{
    if s < left {
        return None;
    }
    let first = at + (t as usize);
    let second = first + reserve_of(h, left);
    Some(Split {
        left,
        first,
        second,
    })
}

// Reads the root of a tree of 2^(h + 1) counts with sum s at bit at; none where it is damaged. For a search, in which each field's place
// waits for the field before: only one shift and a mask stand between the load and the left sum.
pub fn root(b: &[u8], at: usize, h: u32, s: u64) -> Option<Split>
    requires { Lies b.now at (h + 1) s }
    ensures { Rooted (bits b.now) at h s result }
{
    let t = digits_of(s);
    node(at, h, s, t, bits_field::get_field(b, at, t))
}

// The same by shifts alone, which are fewer instructions: for a walk or a check, whose turns the processor foretells. With one way for
// both, one of them takes an eighth longer or more (docs/BENCHMARK.md).
pub fn root_by_shifts(b: &[u8], at: usize, h: u32, s: u64) -> Option<Split>
    requires { Lies b.now at (h + 1) s }
    ensures { Rooted (bits b.now) at h s result }
{
    let t = digits_of(s);
    node(at, h, s, t, front::first(b, at, t))
}

// Whether a tree of 2^h counts with sum s is one of four counts whose three fields, each of no more digits than s, have 57 bits at most.
pub fn one_word(h: u32, s: u64) -> bool
    ensures { result ≡ true → (h ≡ 2) × (digits s ≤ 19) }
{
    h == 2 && digits_of(s) <= 19
}

// Eight counts with a sum below this own 57 bits at most, and with this sum 58.
pub const EIGHT_LIMIT: u64 = 439;

// Whether a tree of 2^h counts with sum s is one of eight counts that own 57 bits at most.
pub fn eight_in_word(h: u32, s: u64) -> bool
    ensures { result ≡ true → (h ≡ 3) × (s < eight_limit) }
{
    h == 3 && s < EIGHT_LIMIT
}
