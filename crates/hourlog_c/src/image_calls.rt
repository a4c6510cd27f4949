// The frozen image, for C. Each contract states what every lent slice is afterwards, also of those that are lent to read only.
ghost use Rattle.std.specs.Prelude.{[], ◌∷◌};
ghost use Rattle.hourlog_c.specs.Public.{Freeze, ImageBusiest, ImageCheck, ImageCount, ImageFromBcd, ImageLength, ImageMatch, ImageReach};
ghost use Rattle.hourlog_c.specs.Public.{ImageMerge, ImageReading, ImageToBcd, ImageWrite};
ghost use Rattle.hourlog_c.specs.Export.{Answers};

use words::{of_bag, of_check, of_number, of_stretch};

pub fn hourlog_freeze(store: &[u8], e: u32, image: &mut [u8]) -> u64
    ensures { Answers (Freeze store.now e image.old) result (store.now ∷ image.new ∷ []) }
{
    of_number(freeze::freeze(store, e, image))
}

pub fn hourlog_image_length(counts: &[u32], e: u32) -> u64
    ensures { Answers (ImageLength counts.now e) result (counts.now ∷ []) }
{
    of_number(image_write::length(counts, e))
}

pub fn hourlog_image_write(counts: &[u32], e: u32, image: &mut [u8]) -> u64
    ensures { Answers (ImageWrite counts.now e image.old) result (counts.now ∷ image.new ∷ []) }
{
    of_number(image_write::write(counts, e, image))
}

pub fn hourlog_image_check(image: &[u8]) -> u64
    ensures { Answers (ImageCheck image.now) result (image.now ∷ []) }
{
    of_check(image_check::check(image))
}

pub fn hourlog_image_count(image: &[u8], hour: u32) -> u64
    ensures { Answers (ImageCount image.now hour) result (image.now ∷ []) }
{
    of_number(image_query::count(image, u64::from(hour)))
}

pub fn hourlog_image_reading(image: &[u8], hour: u32) -> u64
    ensures { Answers (ImageReading image.now hour) result (image.now ∷ []) }
{
    of_number(image_query::reading(image, u64::from(hour)))
}

pub fn hourlog_image_reach(image: &[u8], figure: u64) -> u64
    ensures { Answers (ImageReach image.now figure) result (image.now ∷ []) }
{
    of_number(image_reach::reach(image, figure))
}

pub fn hourlog_image_busiest(image: &[u8], hours: u32) -> u64
    ensures { Answers (ImageBusiest image.now hours) result (image.now ∷ []) }
{
    of_stretch(image_busiest::busiest(image, hours))
}

pub fn hourlog_image_from_bcd(book: &[u8], e: u32, image: &mut [u8]) -> u64
    ensures { Answers (ImageFromBcd book.now e image.old) result (book.now ∷ image.new ∷ []) }
{
    of_number(book_in::from_bcd(book, e, image))
}

pub fn hourlog_image_to_bcd(image: &[u8], book: &mut [u8]) -> u64
    ensures { Answers (ImageToBcd image.now book.old) result (image.now ∷ book.new ∷ []) }
{
    of_number(book_out::to_bcd(image, book))
}

pub fn hourlog_image_match(image: &[u8], figure: u64) -> u64
    ensures { Answers (ImageMatch image.now figure) result (image.now ∷ []) }
{
    of_bag(image_match::matching(image, figure))
}

pub fn hourlog_image_merge(first: &[u8], second: &[u8], e: u32, image: &mut [u8]) -> u64
    ensures { Answers (ImageMerge first.now second.now e image.old) result
        (first.now ∷ second.now ∷ image.new ∷ []) }
{
    of_number(image_merge::merge(first, second, e, image))
}
