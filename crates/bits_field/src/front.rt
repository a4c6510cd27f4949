// The bits from an address on at the high end of a word, so that several fields come out of one load.
ghost use Rattle.std.specs.Prelude.{◌≡◌, ◌+◌, ◌-◌, ◌*◌, ◌/◌, ◌%◌, ◌^◌, ◌≤◌, ◌<◌, length, take, drop};
ghost use Rattle.bits.specs.Bits.{bits, value};
ghost use Rattle.bits_field.specs.Code.Front.{Front};

use crate::place;
use bits_word::load8;

// The bits of s from bit at on: 57 of them at least, or as many as there are. The shift is taken % 64 so that none needs no branch.
pub fn load(s: &[u8], at: usize) -> u64
    requires { (at ≤ 8 * length s.now) × (at < 2 ^ 63) × (8 ≤ length s.now) }
    ensures { Front (bits s.now) at result }
{
    let o = place(at, s.len());
    load8(s, o) << ((at - 8 * o) as u32 % 64)
}

// The n bits of the word w behind its k high ones. Two shifts down, so that n = 0 needs no branch.
pub fn part(w: u64, k: u32, n: u32) -> u64
    requires { (k + n ≤ 64) × (k < 64) × (n < 64) }
    ensures { result ≡ w / 2 ^ (64 - (k + n)) % 2 ^ n }
{
    ((w << k) >> 1) >> (63 - n)
}

// The number in the n bits of s from bit at on, as `get_field` has it, by shifts alone.
pub fn first(s: &[u8], at: usize, n: u32) -> u64
    requires { (at + n ≤ 8 * length s.now) × (at < 2 ^ 63) × (n ≤ 57) × (8 ≤ length s.now) }
    ensures { result ≡ value (take n (drop at (bits s.now))) }
{
    part(load(s, at), 0, n)
}
