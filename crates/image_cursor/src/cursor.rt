// A page of an accepted image in hand, and how far the hours in it go.
ghost use Rattle.std.specs.Prelude.{◌≡◌, ◌+◌, ◌%◌, ◌^◌, ◌≤◌, ◌<◌, length, take};
ghost use Rattle.image_cursor.specs.Code.Cursor.{Ahead, Ready};

use bits_word::low_bits;
use image::head::Head;
use image::opened::Accepted;
use image_page::{page_counts, places_of};
use reserve::power;
use sum_table::SumTable;

// How many hours the page of hour i has from hour i on: pages have 2^e.
fn room(e: u32, i: u64) -> u64
    requires { e ≤ 8 }
    ensures { result + i % 2 ^ e ≡ 2 ^ e }
{
    power(e) - low_bits(i, e)
}

// How many hours there are from hour i on to the end of its page, or of the list. Takes a header, and no image: no byte of it is read.
pub fn ahead(h: Head, i: u64) -> usize
    requires { (h.e ≤ 8) × (h.hours < 4294967296) × (i ≤ h.hours) }
    ensures { Ahead h i result }
{
    (room(h.e, i) as usize).min((h.hours - i) as usize)
}

// Copies the first n counts of a page. It is no part of follow, where no part of an array in a struct with a ghost
// field can be lent.
fn copy_page(page: &[u32; 256], n: usize, counts: &mut [u32; 256])
    requires { n ≤ 256 }
    ensures long { length counts.new ≡ 256 }
    ensures taken { take n counts.new ≡ take n page.now }
{
    counts[..n].copy_from_slice(&page[..n]);
}

// An hour of an accepted image, and the counts of its page if it is logged. It has the table, too, so that no caller hands it on.
// It has 1 KiB, and is made at a call's start and then lent.
#[derive(Drop)]
pub struct Cursor<'a> {
    pub image: &'a Accepted<'a>,
    pub table: &'a SumTable<'a>,
    pub hour: u64,
    pub counts: [u32; 256],
    ghost ready: { Ready image.now.bytes.now hour counts },
}

impl<'a> Cursor<'a> {
    // A cursor at the end of the list, where no page is read.
    pub fn new(image: &'a Accepted<'a>, table: &'a SumTable<'a>) -> Cursor<'a>
        ensures { result.image.now ≡ image.now }
    {
        Cursor {
            image,
            table,
            hour: image.head.hours,
            counts: [0; 256],
        }
    }

    // Goes to an hour, and reads its page if the hour is logged.
    pub fn read(&mut self, hour: u64)
        ensures { (self.new.hour ≡ hour) × (self.new.image.now ≡ self.old.image.now) }
    {
        if hour < self.image.head.hours {
            let p = (hour >> self.image.head.e) as usize;
            page_counts(&places_of(self.image), self.table, p, &mut self.counts, 0);
        }
        self.hour = hour;
    }

    // Goes n hours on: no further than to the first hour of the next page, which is then read.
    pub fn turn(&mut self, n: u64)
        requires { let h = self.old.image.now.head in (self.old.hour ≤ h.hours) × (self.old.hour % 2 ^ h.e + n ≤ 2 ^ h.e) }
        ensures { (self.new.hour ≡ self.old.hour + n) × (self.new.image.now ≡ self.old.image.now) }
    {
        let next = self.hour + n;
        if low_bits(next, self.image.head.e) == 0 {
            self.read(next);
        } else {
            self.hour = next;
        }
    }

    // As turn, behind a cursor on the same image: where that one has the next page, it is copied, and not read again.
    pub fn follow(&mut self, n: u64, lead: &Cursor)
        requires same { lead.now.image.now.bytes.now ≡ self.old.image.now.bytes.now }
        requires inside { let h = self.old.image.now.head in (self.old.hour ≤ h.hours) × (self.old.hour % 2 ^ h.e + n ≤ 2 ^ h.e)
            × (lead.now.hour < h.hours) }
        ensures { (self.new.hour ≡ self.old.hour + n) × (self.new.image.now ≡ self.old.image.now) }
    {
        let next = self.hour + n;
        if next + low_bits(lead.hour, self.image.head.e) == lead.hour {
            copy_page(
                &lead.counts,
                power(self.image.head.e) as usize,
                &mut self.counts,
            );
            self.hour = next;
        } else {
            self.turn(n);
        }
    }
}
