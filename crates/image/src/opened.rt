// An image as the calls on it hand it on: its bytes and its header, read once, and what was tested of them.
ghost use Rattle.std.specs.Prelude.{true, ◌≡◌};
ghost use Rattle.image.specs.Check.{accepted};
ghost use Rattle.image.specs.Code.Head.{EachByte, HeadOf, Opened};

use crate::head::Head;

// Bytes past Refusal::Header, and their header. That each is a byte, as in any slice of u8, is said for proofs that have the list alone.
#[derive(Clone, Copy)]
pub struct Image<'a> {
    pub bytes: &'a [u8],
    pub head: Head,
    ghost opened: { Opened bytes.now head },
    ghost each: { EachByte bytes.now },
}

// Bytes that the full check has passed, and their header. It holds no Image: every reader would say image.image.bytes.
#[derive(Clone, Copy)]
pub struct Accepted<'a> {
    pub bytes: &'a [u8],
    pub head: Head,
    ghost accepted: { accepted bytes.now ≡ true },
    ghost head_of: { HeadOf bytes.now head },
}

impl<'a> Accepted<'a> {
    // The same bytes and header as an image past Refusal::Header, for the functions that read any.
    pub fn image(&self) -> Image<'a>
        ensures { (result.bytes.now ≡ self.now.bytes.now) × (result.head ≡ self.now.head) }
    {
        past_header(self.bytes, self.head)
    }
}

// Accepted bytes are past Refusal::Header.
fn past_header(bytes: &[u8], head: Head) -> Image
    requires { (accepted bytes.now ≡ true) × HeadOf bytes.now head }
    ensures { (result.bytes.now ≡ bytes.now) × (result.head ≡ head) }
{
    Image { bytes, head }
}
