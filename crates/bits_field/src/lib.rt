// Fields of up to 57 bits at any bit address of a slice of bytes: bit 0 is the high bit of byte 0, a field's high bit comes first.
// A field of 57 bits lies in 8 bytes wherever it starts, so one load or store of 8 bytes serves: slices here have 8 bytes or more. Each
// function asks for that: a type of such slices would be two, one for `&` and one for `&mut`, and each caller would make it anew.
#![tactic(auto)]

pub mod front;

ghost use Rattle.std.specs.Prelude.{◌≡◌, ◌+◌, ◌-◌, ◌*◌, ◌/◌, ◌^◌, ◌≤◌, ◌<◌, length, min, take, drop};
ghost use Rattle.lists.specs.Lists.{splice};
ghost use Rattle.bits.specs.Bits.{bits, field, value};

// The index of eight bytes of n that hold 57 bits from bit at on, or as many as there are: those that start with that bit's byte, or the
// last eight.
fn place(at: usize, n: usize) -> usize
    requires { 8 ≤ n }
    ensures { result ≡ min (at / 8) (n - 8) }
{
    (at / 8).min(n - 8)
}

// The number in the width bits of s that start at bit at, whose bounds are those of the call's own arguments. The shift is taken % 64 so
// that a field of no bits needs no branch.
pub fn get_field(s: &[u8], at: usize, width: u32) -> u64
    requires width_bound { (at + width ≤ 8 * length s.now) × (at + width < 2 ^ 64) × (width ≤ 57) }
    requires in_bounds { 8 ≤ length s.now }
    ensures { result ≡ value (take width (drop at (bits s.now))) }
{
    let o = place(at, s.len());
    let off = (at - 8 * o) as u32;
    bits_word::low_bits(bits_word::load8(s, o) >> ((64 - off - width) % 64), width)
}

// Puts the number v into the width bits of out that start at bit at, and changes no other bit. Whatever stood there is replaced.
pub fn put_field(out: &mut [u8], at: usize, width: u32, v: u64)
    requires width_bound { (at + width ≤ 8 * length out.old) × (at + width < 2 ^ 64) × (width ≤ 57) }
    requires v_bound { v < 2 ^ width }
    requires in_bounds { 8 ≤ length out.old }
    ensures { bits out.new ≡ splice (bits out.old) at (field width v) }
{
    if width == 0 {
        return;
    }
    let o = place(at, out.len());
    let low = 64 - (at - 8 * o) as u32 - width;
    let w = bits_word::load8(out, o);
    bits_word::store8(out, o, bits_word::with_field(w, width, low, v));
}

// The same where these bits are all 0: v is added. put_field for both would first take them out of the word, in each field of a tree.
pub fn add_field(out: &mut [u8], at: usize, width: u32, v: u64)
    requires width_bound { (at + width ≤ 8 * length out.old) × (at + width < 2 ^ 64) × (1 ≤ width) × (width ≤ 57) }
    requires v_bound { (v < 2 ^ width) × (8 ≤ length out.old) }
    requires out_value { value (take width (drop at (bits out.old))) ≡ 0 }
    ensures { bits out.new ≡ splice (bits out.old) at (field width v) }
{
    let o = place(at, out.len());
    let low = 64 - (at - 8 * o) as u32 - width;
    let w = bits_word::load8(out, o);
    bits_word::store8(out, o, w + (v << low));
}
