// A link: a number of two bytes that says a page's first cell, the first free cell, or a cell's next one.
ghost use Rattle.std.specs.Prelude.{◌+◌, ◌≤◌, length};
ghost use Rattle.bits.specs.Numbers.{Number};

// The cell that the link at address at names.
pub fn link(s: &[u8], at: usize) -> usize
    requires { at + 2 ≤ length s.now }
    ensures { Number s.now at 2 result }
{
    bits::numbers::get::<2>(s, at) as usize
}
