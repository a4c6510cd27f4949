// Bits made 0, many at a time.
#![tactic(auto)]

ghost use Rattle.std.specs.Prelude.{◌≡◌, ◌+◌, ◌*◌, ◌^◌, ◌≤◌, ◌<◌, length, replicate};
ghost use Rattle.lists.specs.Lists.{splice};
ghost use Rattle.bits.specs.Bits.{bits};

use bits_field::put_field;

// Makes n bits from bit at on 0: those up to the next whole byte, whole bytes, and those left over.
pub fn clear_bits(out: &mut [u8], at: usize, n: usize)
    requires { (at + n ≤ 8 * length out.old) × (at + n < 2 ^ 63) × (8 ≤ length out.old) }
    ensures { bits out.new ≡ splice (bits out.old) at (replicate n 0) }
{
    let front = n.min(at.next_multiple_of(8) - at);
    let whole = (n - front) / 8;
    let first = (at + front) / 8;
    let last = at + front + 8 * whole;
    put_field(out, at, front as u32, 0);
    out[first..first + whole].fill(0);
    put_field(out, last, (at + n - last) as u32, 0);
}
