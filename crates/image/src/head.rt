// The header of an image of either edition, read and tested once, and what it says of the image's parts.
ghost use Rattle.std.specs.Prelude.{Bool, ◌≡◌, ◌+◌, ◌*◌, ◌≤◌, ◌<◌, length, get_or};
ghost use Rattle.reserve.specs.Reserve.{digits};
ghost use Rattle.image.specs.Image.{edition, header_length, max_hours, pages, size, wide};
ghost use Rattle.image.specs.Code.Head.{HeadWith, Numbered, TailOf, Tailed, is_wide};
ghost use Rattle.image.specs.Code.Opened.{Opens};

use crate::opened::Image;
use answers::refusal::Refusal;
use bits::numbers::get;

// The header's fields e, N, S and L; how many pages there are, at which byte the table of their start bits stands, and where the code
// starts among the bits of all the bytes.
#[derive(Clone, Copy)]
pub struct Head {
    pub e: u32,
    pub hours: u64,
    pub total: u64,
    pub bits: u64,
    pub pages: u64,
    pub table: usize,
    pub code: usize,
}

impl Head {
    // The bytes of the header of edition 1.
    pub const SIZE: usize = 16;
    // The bytes of the header of edition 2.
    pub const WIDE_SIZE: usize = 24;
    // The limits of an image.
    pub const MAX_HOURS: u64 = 65536;

    pub const MAX_COUNT: u64 = 4294967295;

    pub const MAX_TOTAL: u64 = 1099511627775;
    // The largest total of edition 1.
    pub const NARROW_TOTAL: u64 = 4294967295;

    // The width of a root in bits, the binary digits of S. The counts of a page need no such method: `power(e)` as an index is as short.
    pub fn root_width(&self) -> u32
        ensures { result ≡ digits self.now.total }
    {
        reserve::digits_of(self.total)
    }
}

// The two editions. The wide one has eight bytes for S and a longer header.
#[derive(Clone, Copy)]
pub enum Edition {
    Narrow,
    Wide,
}

impl Edition {
    // The edition that byte 0 gives; there is no other.
    fn numbered(byte: u64) -> Option<Edition>
        ensures { Numbered byte result }
    {
        match byte {
            1 => Some(Edition::Narrow),
            2 => Some(Edition::Wide),
            _ => None,
        }
    }

    // The edition that the writer uses for a total.
    pub fn for_total(total: u64) -> Edition
        ensures { is_wide result ≡ wide total }
    {
        if Head::NARROW_TOTAL < total {
            Edition::Wide
        } else {
            Edition::Narrow
        }
    }

    // Its number, byte 0.
    pub fn number(self) -> u8
        ensures { result ≡ edition (is_wide self) }
    {
        match self {
            Edition::Narrow => 1,
            Edition::Wide => 2,
        }
    }

    // How long its header is.
    pub fn header_size(self) -> usize
        ensures { (result ≡ header_length (is_wide self)) × (result ≤ 24) }
    {
        match self {
            Edition::Narrow => Head::SIZE,
            Edition::Wide => Head::WIDE_SIZE,
        }
    }
}

// How many pages of 2^e counts n counts have. The bounds of e and table here and below are asked: a plan, a layout and a header know them,
// and have no type in common.
pub fn pages_of(e: u32, n: u64) -> u64
    requires { (e ≤ 8) × (n < 4294967296) }
    ensures { (result ≡ pages e n) × (result ≤ n) }
{
    n.div_ceil(reserve::power(e))
}

// The byte where page p's start bit stands in the table, which starts at byte table, behind the header.
pub fn table_at(table: usize, p: u64) -> usize
    requires { (table ≤ 24) × (p ≤ max_hours) }
    ensures { result ≡ table + 4 * p }
{
    table + 4 * (p as usize)
}

// How many bytes an image of n counts with l bits of code has, whose table starts at byte table.
pub fn size_of(table: usize, e: u32, n: u64, l: u64) -> u64
    requires { (table ≤ 24) × (e ≤ 8) × (n ≤ max_hours) × (l < 4294967296) }
    ensures { (b : Bool) → table ≡ header_length b → result ≡ size b e n l }
{
    (table_at(table, pages_of(e, n)) as u64) + l.div_ceil(8)
}

// What stands behind N in the header, where the editions differ: S, L, and the byte where the header ends and the table starts.
#[derive(Clone, Copy)]
struct Tail {
    total: u64,
    bits: u64,
    table: usize,
}

// Edition 1 has four bytes for S, and nothing of it to test: one function for both editions would be no shorter.
fn narrow_tail(s: &[u8]) -> Tail
    requires { (16 ≤ length s.now) × (get_or s.now 0 0 ≡ 1) }
    ensures { TailOf s.now result }
{
    let total = get::<4>(s, 8);
    let bits = get::<4>(s, 12);
    Tail {
        total,
        bits,
        table: Head::SIZE,
    }
}

// Edition 2 has eight for S, which is from 2^32 to 2^40 - 1, and four zero bytes behind L.
fn wide_tail(s: &[u8]) -> Option<Tail>
    requires { get_or s.now 0 0 ≡ 2 }
    ensures { Tailed s.now result }
{
    if s.len() < Head::WIDE_SIZE {
        return None;
    }
    let total = get::<8>(s, 8);
    let bits = get::<4>(s, 16);
    let zeros = get::<4>(s, 20);
    if total <= Head::NARROW_TOTAL || Head::MAX_TOTAL < total || zeros != 0 {
        return None;
    }
    Some(Tail {
        total,
        bits,
        table: Head::WIDE_SIZE,
    })
}

// The tail as the edition that byte 0 gives has it.
fn tail_of(s: &[u8], byte: u64) -> Option<Tail>
    requires { (16 ≤ length s.now) × (byte ≡ get_or s.now 0 0) }
    ensures { Tailed s.now result }
{
    match Edition::numbered(byte)? {
        Edition::Narrow => Some(narrow_tail(s)),
        Edition::Wide => wide_tail(s),
    }
}

// The whole header of e, N and a tail that is right.
fn head_of(e: u32, hours: u64, tail: Tail) -> Head
    requires { (e ≤ 8) × (hours ≤ max_hours) × (tail.table ≤ 24) }
    ensures { HeadWith e hours tail result }
{
    let pages = pages_of(e, hours);
    let code = 8 * table_at(tail.table, pages);
    Head {
        e,
        hours,
        total: tail.total,
        bits: tail.bits,
        pages,
        table: tail.table,
        code,
    }
}

// Reads the header of bytes and tests it and their length: Refusal::Header. Bytes 1 to 3, e and two zeros, are one number: e, if it is 8 at
// most. It is kept small, so that the compiler joins it with every call.
pub fn open_image(s: &[u8]) -> Result<Image, Refusal>
    ensures { Opens s.now result }
{
    if s.len() < Head::SIZE {
        return Err(Refusal::Header);
    }
    let first = get::<4>(s, 0);
    let hours = get::<4>(s, 4);
    let tail = tail_of(s, first % 256).ok_or(Refusal::Header)?;
    let e = first / 256;
    if e < 2 || 8 < e || Head::MAX_HOURS < hours {
        return Err(Refusal::Header);
    }
    let head = head_of(e as u32, hours, tail);
    let end = head.code / 8 + head.bits.div_ceil(8) as usize;
    if s.len() != end {
        return Err(Refusal::Header);
    }
    Ok(Image { bytes: s, head })
}
