// Words of eight bytes, high byte first, as a stream's bits go (`bits::numbers` has the low byte first), and the fields in a word. The
// compiler makes one load or store of a word.
#![tactic(auto)]

ghost use Rattle.std.specs.Prelude.{◌≡◌, ◌+◌, ◌*◌, ◌/◌, ◌%◌, ◌^◌, ◌≤◌, ◌<◌, length, take, drop};
ghost use Rattle.lists.specs.Lists.{splice};
ghost use Rattle.bits.specs.Bits.{bits, field};

// The n low bits of x.
pub fn low_bits(x: u64, n: u32) -> u64
    requires { n < 64 }
    ensures { result ≡ x % 2 ^ n }
{
    x & ((1u64 << n) - 1)
}

// The bits of x with the n bits of y after them.
pub fn joined(x: u64, n: u32, y: u64) -> u64
    requires { (n < 64) × (y < 2 ^ n) × (x * 2 ^ n < 2 ^ 64) }
    ensures { result ≡ x * 2 ^ n + y }
{
    (x << n) | y
}

// The word w with the n bits above its low ones replaced by those of v.
pub fn with_field(w: u64, n: u32, low: u32, v: u64) -> u64
    requires { (n + low ≤ 64) × (n < 64) × (low < 64) × (v < 2 ^ n) }
    ensures { result ≡ (w / 2 ^ (low + n) * 2 ^ n + v) * 2 ^ low + w % 2 ^ low }
{
    joined(joined((w >> low) >> n, n, v), low, low_bits(w, low))
}

// The eight bytes from index i on as one number: one load and a byte swap. By `copy_from_slice`, as in `store8`, the compiler leaves a test
// of the length and a way through memory: a check takes a fifth longer, a walk an eighth.
pub fn load8(s: &[u8], i: usize) -> u64
    requires { i + 8 ≤ length s.now }
    ensures { field 64 result ≡ take 64 (drop (8 * i) (bits s.now)) }
{
    u64::from_be_bytes([
        s[i],
        s[i + 1],
        s[i + 2],
        s[i + 3],
        s[i + 4],
        s[i + 5],
        s[i + 6],
        s[i + 7],
    ])
}

// Puts w into the eight bytes from index i on: a byte swap and one store.
pub fn store8(out: &mut [u8], i: usize, w: u64)
    requires { i + 8 ≤ length out.old }
    ensures { bits out.new ≡ splice (bits out.old) (8 * i) (field 64 w) }
{
    out[i..i + 8].copy_from_slice(&w.to_be_bytes());
}
