// A header, put into a store's bytes.
ghost use Rattle.std.specs.Prelude.{◌≤◌, length};
ghost use Rattle.store.specs.Layout.{header_length};
ghost use Rattle.fresh.specs.Code.Header.{HeaderPut};

use chains::numbers::put;
use store::header::Header;

// Puts a header into a store's first 16 bytes.
pub(crate) fn put_header(s: &mut [u8], h: Header)
    requires { header_length ≤ length s.old }
    ensures { HeaderPut s.old h s.new }
{
    put::<2>(s, 0, Header::EDITION as u64);
    put::<2>(s, 2, h.pages as u64);
    put::<2>(s, 4, h.cells as u64);
    put::<2>(s, 6, h.first_free as u64);
    put::<2>(s, 8, h.free as u64);
    put::<2>(s, 10, 0);
    put::<4>(s, 12, h.hours as u64);
}
