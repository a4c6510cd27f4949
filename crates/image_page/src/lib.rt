// The counts of a page of an image that the full check has accepted, and its root. Nothing is tested here: a caller checks once, and then
// goes page by page over one lent array; who reads many pages in a row finds the places once.
#![tactic(auto)]

ghost use Rattle.std.specs.Prelude.{true, ◌≡◌, ◌+◌, ◌^◌, ◌≤◌, ◌<◌};
ghost use Rattle.lists.specs.Lists.{splice};
ghost use Rattle.image.specs.Check.{accepted};
ghost use Rattle.image.specs.Image.{page, root};
ghost use Rattle.image.specs.Read.{before_of, e_of, list_of, page_count_of, root_at, start_of, sum_of, tree_at};
ghost use Rattle.image_page.specs.Code.Places.{PlacesOf};

use bits::numbers::get;
use image::head::table_at;
use image::opened::Accepted;
use sum_table::SumTable;
use tree_decode::decode;

// What the reading of pages needs of an accepted image, worked out once: its bytes, the byte where the table of start bits stands, the bit
// where the code starts, how many digits a root has, and e.
#[derive(Clone, Copy)]
pub struct Places<'a> {
    pub bytes: &'a [u8],
    pub entries: usize,
    pub code: usize,
    pub width: u32,
    pub e: u32,
    ghost accepted: { accepted bytes.now ≡ true },
    ghost places: { PlacesOf bytes.now entries code width },
    ghost page: { e ≡ e_of bytes.now },
}

// Finds the places of an accepted image.
pub fn places_of<'a>(image: &Accepted<'a>) -> Places<'a>
    ensures { result.bytes.now ≡ image.now.bytes.now }
{
    Places {
        bytes: image.bytes,
        entries: image.head.table,
        code: image.head.code,
        width: reserve::digits_of(image.head.total),
        e: image.head.e,
    }
}

// A page of such an image. Its root is read without the tests of image::page, which are for images that no check has passed.
#[derive(Clone, Copy)]
struct PageAt<'a> {
    places: &'a Places<'a>,
    p: usize,
    ghost inside: { p < page_count_of places.now.bytes.now },
}

impl PageAt<'_> {
    // Where it starts in the code, from the table.
    fn start(&self) -> usize
        ensures { result ≡ start_of self.now.places.now.bytes.now self.now.p }
    {
        get::<4>(
            self.places.bytes,
            table_at(self.places.entries, self.p as u64),
        ) as usize
    }

    // Its root: the sum of all counts to its end.
    fn root(&self) -> u64
        ensures bytes { result ≡ root_at self.now.places.now.bytes.now self.now.p }
        ensures list { let s = self.now.places.now.bytes.now in result ≡ root (e_of s) (list_of s) self.now.p }
    {
        bits_field::get_field(
            self.places.bytes,
            self.places.code + self.start(),
            self.places.width,
        )
    }

    // The root of the page before it: 0 before page 0.
    fn before(&self) -> u64
        ensures { result ≡ before_of self.now.places.now.bytes.now self.now.p }
    {
        if self.p == 0 {
            return 0;
        }
        let last = PageAt {
            places: self.places,
            p: self.p - 1,
        };
        last.root()
    }

    // Puts its 2^e counts into counts from index from on; its tree, which has their sum, starts behind its root. Array and index go on as
    // the decoder takes them, one array of 256 by a thin pointer.
    fn unpack(&self, table: &SumTable, sum: u64, counts: &mut [u32; 256], from: usize)
        requires { (sum ≡ sum_of self.now.places.now.bytes.now self.now.p) × (from + 2 ^ self.now.places.now.e ≤ 256) }
        ensures { let s = self.now.places.now.bytes.now in counts.new ≡ splice counts.old from (page (e_of s) (list_of s) self.now.p) }
    {
        let tree = self.places.code + self.start() + (self.places.width as usize);
        decode(
            self.places.bytes,
            table,
            tree,
            self.places.e,
            sum,
            counts,
            from,
        );
    }
}

// The root of page p: the sum of all counts to the page's end, none of which is decoded.
pub fn page_root(image: &Accepted, p: usize) -> u64
    requires { p < page_count_of image.now.bytes.now }
    ensures { result ≡ root (e_of image.now.bytes.now) (list_of image.now.bytes.now) p }
{
    let page = PageAt {
        places: &places_of(image),
        p,
    };
    page.root()
}

// Puts the 2^e counts of page p at the front of counts, zeros from hour N on among them; the page's sum is known. What stands in counts
// behind them is left as it is. The table of small sums is lent.
pub fn counts_of(image: &Accepted, table: &SumTable, p: usize, sum: u64, counts: &mut [u32; 256])
    requires { (p < page_count_of image.now.bytes.now) × (sum ≡ sum_of image.now.bytes.now p) }
    ensures { let s = image.now.bytes.now in counts.new ≡ splice counts.old 0 (page (e_of s) (list_of s) p) }
{
    let page = PageAt {
        places: &places_of(image),
        p,
    };
    page.unpack(table, sum, counts, 0);
}

// The same into counts from index from on, where the sum is what the page's root is above the one before.
pub fn page_counts(
    places: &Places,
    table: &SumTable,
    p: usize,
    counts: &mut [u32; 256],
    from: usize,
)
    requires { (p < page_count_of places.now.bytes.now) × (from + 2 ^ places.now.e ≤ 256) }
    ensures { let s = places.now.bytes.now in counts.new ≡ splice counts.old from (page (e_of s) (list_of s) p) }
{
    let page = PageAt { places, p };
    page.unpack(table, page.root() - page.before(), counts, from);
}
