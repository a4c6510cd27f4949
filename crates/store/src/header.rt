// The header of a store, and where its other parts start.
ghost use Rattle.std.specs.Prelude.{◌≡◌, ◌≤◌, ◌<◌, length};
ghost use Rattle.store.specs.Layout.{cell_at, cells_start, entry_at, fresh as fresh_model, header_length};
ghost use Rattle.store.specs.Code.Head.{HeadFor, HeadOf};

// What a store's header says: P, C, the first free cell, how many cells are free, and N.
#[derive(Clone, Copy)]
pub struct Header {
    pub pages: usize,
    pub cells: usize,
    pub first_free: usize,
    pub free: usize,
    pub hours: usize,
}

impl Header {
    // The limits of the store.
    pub const MAX_PAGES: usize = 1024;

    pub const MAX_CELLS: usize = 1800;

    pub const MAX_TOTAL: u64 = 4294967295;
    // A mark for each cell, and one for 0, which is no cell. Marks are bytes, 0 or 1: the definitions of the check and of a repair speak of
    // lists of numbers (`walk_marks`), and the check's last look is over all of them at once.
    pub const MARKS: usize = Header::MAX_CELLS + 1;

    pub const EDITION: usize = 1;
    // The hours of a page, and the height of its tree: 2^6 hours.
    pub const HOURS: usize = 64;

    pub const HEIGHT: u32 = 6;
    // The bytes of the header, of a page entry, of a cell, and of a cell's code.
    pub const SIZE: usize = 16;

    pub const ENTRY: usize = 6;

    pub const CELL: usize = 32;

    pub const CODE: usize = 30;
    // The bits of a cell's code.
    pub const BITS: usize = 240;
    // The bytes of eight cells' code: no page has more.
    pub const PAGE_ROOM: usize = 8 * Header::CODE;

    // The header of a fresh store: all cells are free.
    pub fn fresh(pages: usize, cells: usize) -> Self
        requires { 1 ≤ cells }
        ensures { HeadFor (fresh_model pages cells) result }
    {
        Self {
            pages,
            cells,
            first_free: 1,
            free: cells,
            hours: 0,
        }
    }

    // The header that stands in a store's bytes.
    pub fn of(s: &[u8]) -> Self
        requires { header_length ≤ length s.now }
        ensures { HeadOf s.now result }
    {
        Self {
            pages: bits::numbers::get::<2>(s, 2) as usize,
            cells: bits::numbers::get::<2>(s, 4) as usize,
            first_free: bits::numbers::get::<2>(s, 6) as usize,
            free: bits::numbers::get::<2>(s, 8) as usize,
            hours: bits::numbers::get::<4>(s, 12) as usize,
        }
    }
}

// Where page p's entry starts.
pub fn entry_at(p: usize) -> usize
    requires { p < 65536 }
    ensures { result ≡ entry_at p }
{
    Header::SIZE + Header::ENTRY * p
}

// Where the cells of a store of so many pages start: behind the last entry.
pub fn cells_from(pages: usize) -> usize
    requires { pages < 65536 }
    ensures { result ≡ cells_start pages }
{
    entry_at(pages)
}

// Where cell c starts, of cells that start at base.
pub fn cell_at(base: usize, c: usize) -> usize
    requires { (base < 65536) × (1 ≤ c) × (c < 65536) }
    ensures { result ≡ cell_at base c }
{
    base + Header::CELL * (c - 1)
}
