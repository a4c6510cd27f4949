// A store that was found sound, for the calls that only read. A call that changes a store says `sound` of the bytes before it in its
// contract, since the bytes are not sound between its writes; where it only reads, it hands on a Sound of its bytes.
ghost use Rattle.std.specs.Prelude.{true, ◌≡◌};
ghost use Rattle.store.specs.Sound.{sound};

// The bytes of a store that is sound. It has no header beside them: a question reads one or two numbers of it, and a call that writes makes
// its Sound from the bytes alone.
#[derive(Clone, Copy)]
pub struct Sound<'a> {
    pub bytes: &'a [u8],
    ghost is_sound: { sound bytes.now ≡ true },
}
