// Numbers put into a store's bytes.
ghost use Rattle.std.specs.Prelude.{◌≡◌, ◌+◌, ◌≤◌, length};
ghost use Rattle.store.specs.Code.Links.{put};

// Puts a number into the N bytes at address at. The same as bits' put, in the words of the definitions of links (`joined`, `cut`,
// `rewritten`), so that no proof above goes from the one to the other.
pub fn put<const N: usize>(s: &mut [u8], at: usize, v: u64)
    requires width { N ≤ 8 }
    requires in_bounds { at + N ≤ length s.old }
    ensures { s.new ≡ put s.old at N v }
{
    bits::numbers::put::<N>(s, at, v);
}
