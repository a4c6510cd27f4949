// What a line asks.
ghost use Rattle.std.specs.Prelude.{◌≡◌, ◌≢◌, [], ◌∷◌, map, ℕ, ◌<◌, length, slice_index, IfNone, IfSome, Some};
ghost use Rattle.session.specs.Number.{number as number_of};
ghost use Rattle.session.specs.Line.{by_letter, command, split_on};

use crate::number::number;

// A line that asks something, with the numbers behind its letter.
#[derive(Clone, Copy)]
pub enum Command {
    Fresh(u32, u32),
    Append(u32),
    Set(u32, u32),
    Count(u32),
    Reading(u32),
    Reach(u32),
    Day(u32),
    Free,
}

// The command of a letter alone.
fn with_none(letter: u8) -> Option<Command>
    ensures { result ≡ by_letter letter [] }
{
    match letter {
        b'f' => Some(Command::Free),
        _ => None,
    }
}

// The command of a letter and a number.
fn with_one(letter: u8, x: u32) -> Option<Command>
    ensures { result ≡ by_letter letter (Some x ∷ []) }
{
    match letter {
        b'a' => Some(Command::Append(x)),
        b'g' => Some(Command::Count(x)),
        b'r' => Some(Command::Reading(x)),
        b'w' => Some(Command::Reach(x)),
        b'd' => Some(Command::Day(x)),
        _ => None,
    }
}

// The command of a letter and two numbers.
fn with_two(letter: u8, x: u32, y: u32) -> Option<Command>
    ensures { result ≡ by_letter letter (Some x ∷ Some y ∷ []) }
{
    match letter {
        b'n' => Some(Command::Fresh(x, y)),
        b's' => Some(Command::Set(x, y)),
        _ => None,
    }
}

// The place of the first space in s, if there is one.
fn first_space(s: &[u8]) -> Option<usize>
    ensures none { IfNone result ((k : ℕ) → k < length s.now → slice_index s.now k ≢ 32) }
    ensures before { IfSome result (λ i. (k : ℕ) → k < i → slice_index s.now k ≢ 32) }
    ensures found { IfSome result (λ i. (i < length s.now) × (slice_index s.now i ≡ 32)) }
{
    s.iter().position(|b| *b == b' ')
}

// The command of a letter and one part that is to be a number.
fn single(letter: u8, part: &[u8]) -> Option<Command>
    ensures { result ≡ by_letter letter (number_of part.now ∷ []) }
{
    with_one(letter, number(part)?)
}

// The command of a letter and two parts that are to be numbers.
fn pair(letter: u8, part: &[u8], other: &[u8]) -> Option<Command>
    ensures { result ≡ by_letter letter (number_of part.now ∷ number_of other.now ∷ []) }
{
    with_two(letter, number(part)?, number(other)?)
}

// The command of a letter and what stands behind its space.
fn with_numbers(letter: u8, rest: &[u8]) -> Option<Command>
    ensures { result ≡ by_letter letter (map number_of (split_on 32 rest.now)) }
{
    match first_space(rest) {
        None => single(letter, rest),
        Some(k) => pair(letter, &rest[..k], &rest[k + 1..]),
    }
}

// What a line asks, if anything, given its bytes without the line end.
pub fn parse(line: &[u8]) -> Option<Command>
    ensures { result ≡ command line.now }
{
    if 40 < line.len() {
        return None;
    }
    match line {
        [letter] => with_none(*letter),
        [letter, b' ', rest @ ..] => with_numbers(*letter, rest),
        _ => None,
    }
}
