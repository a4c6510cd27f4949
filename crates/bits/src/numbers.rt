// Numbers of several bytes, low byte first, as stored numbers are; a stream's bits count from the high one, so `bits_word` has the high
// byte first.
ghost use Rattle.std.specs.Prelude.{◌≡◌, ◌+◌, ◌≤◌, length};
ghost use Rattle.lists.specs.Lists.{splice};
ghost use Rattle.bits.specs.Numbers.{Number, little};

// The number in the N bytes of s from index at on.
pub fn get<const N: usize>(s: &[u8], at: usize) -> u64
    requires width { N ≤ 8 }
    requires in_bounds { at + N ≤ length s.now }
    ensures { Number s.now at N result }
{
    let mut bytes = [0u8; 8];
    bytes[..N].copy_from_slice(&s[at..at + N]);
    u64::from_le_bytes(bytes)
}

// Puts the low N bytes of v into those of out from index at on.
pub fn put<const N: usize>(out: &mut [u8], at: usize, v: u64)
    requires width { N ≤ 8 }
    requires in_bounds { at + N ≤ length out.old }
    ensures { out.new ≡ splice out.old at (little N v) }
{
    out[at..at + N].copy_from_slice(&v.to_le_bytes()[..N]);
}
