// A sound store's list in blocks of 256 hours, of which four pages of the store make one.
ghost use Rattle.std.specs.Prelude.{◌≡◌};
ghost use Rattle.store.specs.Reading.{list_in, page_count_of};

use image_put::blocks::Blocks;
use pages::entry::entry_of;
use store::header::Header;
use store::sound::Sound;
use sum_table::SumTable;

// The store, how many pages it has, and the table of small sums.
#[derive(Clone, Copy)]
pub(crate) struct Listed<'a> {
    pub store: Sound<'a>,
    pub pages: usize,
    pub table: SumTable<'a>,
    ghost pages_are: { pages ≡ page_count_of store.bytes.now },
}

impl Blocks for Listed<'_> {
    ghost list = { λ l. list_in l.store.bytes.now };

    // Behind the last page of the store the counts stay zeros.
    fn block(&self, k: usize, counts: &mut [u32; 256]) {
        let first = 4 * k;
        counts.fill(0);
        for j in 0..(self.pages - first).min(4) {
            let own = entry_of(self.store, first + j);
            let code = own.code();
            tree_decode::decode(
                &code,
                &self.table,
                0,
                Header::HEIGHT,
                own.sum,
                counts,
                Header::HOURS * j,
            );
        }
    }
}
