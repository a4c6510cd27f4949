// Numbers in decimal digits. They are read here, since u32's own parse takes a + in front, and document 01 takes digits alone.
ghost use Rattle.std.specs.Prelude.{◌≡◌};
ghost use Rattle.session.specs.Number.{number as read};

// The number that all of s is: it stops at the first byte that makes it none, so that no value grows past the limit.
pub fn number(s: &[u8]) -> Option<u32>
    ensures { result ≡ read s.now }
{
    if s.is_empty() {
        return None;
    }
    let mut value: u32 = 0;
    for b in s {
        if !b.is_ascii_digit() {
            return None;
        }
        value = value.checked_mul(10)?.checked_add(u32::from(*b - b'0'))?;
    }
    Some(value)
}
