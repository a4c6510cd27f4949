// The 30 bytes of code that a cell holds.
ghost use Rattle.std.specs.Prelude.{◌≡◌, ◌+◌, ◌≤◌, length};
ghost use Rattle.std.proofs.lemmas.List.Edits.{sets};

// Puts these 30 bytes of code at address at. They are a slice: most callers have them as a part of a store's bytes, which is one. By bytes,
// rising: a copy writes pieces in an order of its own, and a board whose power fails within the call is to find what it always found.
pub fn put_block(s: &mut [u8], at: usize, code: &[u8])
    requires { (at + 30 ≤ length s.old) × (length code.now ≡ 30) }
    ensures { s.new ≡ sets s.old at code.now }
{
    for (i, b) in code.iter().enumerate() {
        s[at + i] = *b;
    }
}
