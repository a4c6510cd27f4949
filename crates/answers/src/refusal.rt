// The refusals of document 01, 'Where a call is turned down', and from 13 on those of document 02's notes. They have no Display and are no
// Error: 'A refusal is its number alone', and that is what a session prints and what C gets.
ghost use Rattle.std.specs.Prelude.{◌≡◌};

#[derive(Clone, Copy, Debug, PartialEq, Eq)]
pub enum Refusal {
    // e outside 2 to 8
    PageSize = 1,
    // over 65,536 counts
    List = 2,
    // above 4,294,967,295; of a list for an image above 2^40 - 1
    Total = 3,
    // output buffer shorter than the image
    Buffer = 4,
    // image header
    Header = 5,
    // image body
    Body = 6,
    // hour, as in the plain list
    Hour = 7,
    // figure, p above the total
    Figure = 8,
    // P, C or buffer length wrong
    Fresh = 9,
    // store, not sound
    Unsound = 10,
    // append, log full
    Full = 11,
    // cells, need above C
    Cells = 12,
    // note 1: k is 0 or above N
    Stretch = 13,
    // note 3: a book of odd length or with a digit above 9
    Book = 14,
    // note 3: an image with a count above 9999
    FourDigits = 15,
    // note 4: a list of changed days that is none
    Changes = 16,
    // note 7: a q of 0
    Bag = 17,
    // note 10: not to be repaired
    Repair = 18,
}

impl Refusal {
    ghost use Rattle.answers.specs.Number.{number};

    // 'A refusal is its number alone.' It is no From<Refusal> for u32, as its name says at each call what
    // `from` would not: whose number it is.
    pub fn number(self) -> u32
        ensures { result ≡ number self }
    {
        self as u32
    }
}
