// A page's code from its counts.
ghost use Rattle.std.specs.Prelude.{◌≡◌, ◌++◌, ◌-◌, ◌*◌, ◌<◌, replicate};
ghost use Rattle.lists.specs.Lists.{sum};
ghost use Rattle.store.specs.PageCode.{cells, page_bytes, page_room};

use store::header::Header;

// Puts the code of the counts of sum s into the zero bytes of eight cells. They are a slice: as an array, which was tried, a proof had no
// fact that each is below 256.
fn encode(code: &mut [u8], counts: &[u32; Header::HOURS], s: u64)
    requires blank { code.old ≡ replicate page_room 0 }
    requires total { (s ≡ sum counts.now) × (s < 4294967296) }
    ensures { code.new ≡ page_bytes counts.now ++ replicate (page_room - 30 * cells s) 0 }
{
    tree_write::nodes(code, 0, Header::HEIGHT, counts, 0, s);
}

// The code of a page of sum s, with zeros behind it to the bytes of eight cells. Counts and code go by value, as document 01 names it.
pub fn code_of(counts: [u32; Header::HOURS], s: u64) -> [u8; Header::PAGE_ROOM]
    requires { (s ≡ sum counts) × (s < 4294967296) }
    ensures { result ≡ page_bytes counts ++ replicate (page_room - 30 * cells s) 0 }
{
    let mut code = [0u8; Header::PAGE_ROOM];
    encode(&mut code, &counts, s);
    code
}
