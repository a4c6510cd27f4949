// What a page's entry says, and the page's code and counts.
ghost use Rattle.std.specs.Prelude.{◌≡◌, ◌*◌, ◌≤◌, ◌<◌, length};
ghost use Rattle.lists.specs.Lists.{splice};
ghost use Rattle.store.specs.Plain.{page as page_in};
ghost use Rattle.store.specs.Reading.{list_in, page_count_of};
ghost use Rattle.store.specs.Code.Links.{Steps};
ghost use Rattle.store.specs.Code.Hours.{OfPage};
ghost use Rattle.pages.specs.Gathered.{Gathered, code_from};

use bits::numbers::get;
use chains::block::put_block;
use store::cells::cells_of;
use store::header::{Header, cell_at, cells_from, entry_at};
use store::link::link;
use store::sound::Sound;
use sum_table::SumTable;

// A page of a store that is sound or between two pages of a change: the store's bytes, where its cells start, the page's number and sum,
// and how many cells it has.
#[derive(Clone, Copy)]
pub struct Entry<'a> {
    pub bytes: &'a [u8],
    pub base: usize,
    pub page: usize,
    pub sum: u64,
    pub cells: usize,
    ghost of_page: { OfPage bytes.now base page sum cells },
}

// The entry of page p of a sound store.
pub fn entry_of(s: Sound, p: usize) -> Entry
    requires { p < page_count_of s.bytes.now }
    ensures { (result.bytes.now ≡ s.entry.bytes.now) × (result.page ≡ p) }
{
    let sum = get::<4>(s.bytes, entry_at(p));
    Entry {
        bytes: s.bytes,
        base: cells_from(get::<2>(s.bytes, 2) as usize),
        page: p,
        sum,
        cells: cells_of(sum),
    }
}

// Copies the codes of the k cells from the link at address e on to the front of out, 30 bytes each. It is no method of Entry: what it puts
// there, `code_from`, is of a chain by these numbers, whatever page has it.
fn copy_chain(s: &[u8], base: usize, e: usize, k: usize, out: &mut [u8])
    requires { (base < 65536) × (30 * k ≤ length out.old) × Steps s.now base e k }
    ensures { out.new ≡ splice out.old 0 (code_from s.now base e k) }
{
    let mut at = e;
    // By index: behind an iterator over the chunks of out a proof knows no byte of it.
    for j in 0..k {
        at = cell_at(base, link(s, at));
        put_block(out, Header::CODE * j, &s[at + 2..at + Header::CELL]);
    }
}

impl Entry<'_> {
    // The page's code, gathered from its cells, with zeros behind it to the bytes of eight cells. It comes back by value, as document 01
    // names it.
    pub fn code(&self) -> [u8; Header::PAGE_ROOM]
        ensures { Gathered self.now.bytes.now self.now.page result }
    {
        let mut code = [0u8; Header::PAGE_ROOM];
        copy_chain(
            self.bytes,
            self.base,
            entry_at(self.page) + 4,
            self.cells,
            &mut code,
        );
        code
    }

    // The page's counts, decoded into an array of 256, as the pages of an image are. They come back by value, as document 01 names it. The
    // table of small sums is lent.
    pub fn counts(&self, table: &SumTable) -> [u32; Header::HOURS]
        ensures { result ≡ page_in (list_in self.now.bytes.now) self.now.page }
    {
        let code = self.code();
        let mut room = [0u32; 256];
        tree_decode::decode(&code, table, 0, Header::HEIGHT, self.sum, &mut room, 0);
        let mut counts = [0u32; Header::HOURS];
        counts.copy_from_slice(&room[..Header::HOURS]);
        counts
    }
}
