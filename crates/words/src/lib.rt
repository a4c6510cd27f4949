// Answers as words of 64 bits.
#![tactic(auto)]

ghost use Rattle.std.specs.Prelude.{◌≡◌, ◌<◌};
ghost use Rattle.answers.specs.Bag.{Refused as no_bag, told as told_bag};
ghost use Rattle.answers.specs.Image.{fails, refused, ruled, told};
ghost use Rattle.answers.specs.Number.{number};
ghost use Rattle.answers.specs.Store.{refused as turned, told_change, told_done, told_number};
ghost use Rattle.answers.specs.Stretch.{Refused as no_stretch, told as told_stretch};
ghost use Rattle.words.specs.End.{end_of_bag, end_of_check, end_of_image, end_of_store, end_of_stretch};
ghost use Rattle.words.specs.Words.{minus as minus_word, pair as pair_word, word_of};

use answers::image::{Contents, Run, Stretch};
use answers::refusal::Refusal;
use answers::store::Change;

// A refusal, as minus its number.
#[tactic(auto, unfolding(crate::specs::Words::minus))]
fn minus(r: Refusal) -> u64
    ensures { result ≡ minus_word (number r) }
{
    0u64.wrapping_sub(u64::from(r.number()))
}

// A refusal by any number, of whichever kind of call, as minus that number: for a caller that has a number and no `Refusal`.
#[tactic(auto, unfolding(crate::specs::Words::minus, crate::specs::Words::word_of, crate::specs::End::end_of_store, crate::specs::End::end_of_image, crate::specs::End::end_of_check, crate::specs::End::end_of_stretch, crate::specs::End::end_of_bag))]
pub fn of_refusal(k: u32) -> u64
    ensures store { result ≡ word_of (end_of_store (turned k)) }
    ensures image { result ≡ word_of (end_of_image (refused k)) }
    ensures check { result ≡ word_of (end_of_check (fails k)) }
    ensures stretch { result ≡ word_of (end_of_stretch (no_stretch k)) }
    ensures bag { result ≡ word_of (end_of_bag (no_bag k)) }
{
    0u64.wrapping_sub(u64::from(k))
}

// Two numbers in one word, the second from bit k on.
#[tactic(auto, unfolding(crate::specs::Words::pair))]
fn pair(k: u32, a: u64, b: u64) -> u64
    requires { k < 64 }
    ensures { result ≡ pair_word k a b }
{
    a.wrapping_add(b << k)
}

// A function for each kind of answer. One over a trait is longer: an impl for each kind is as long as its function here, and seven laws
// come to it, that each kind's word is the word of what the call is told to answer. A number is told in two ways.

// An accepted append, set, insert or strike.
#[tactic(auto, unfolding(crate::specs::Words::word_of, crate::specs::End::end_of_store))]
pub fn of_change(a: Result<Change, Refusal>) -> u64
    ensures { result ≡ word_of (end_of_store (told_change a)) }
{
    match a {
        Ok(c) => pair(16, c.taken, c.returned),
        Err(r) => minus(r),
    }
}

// A number, of the live store or of an image.
#[tactic(auto, unfolding(crate::specs::Words::word_of, crate::specs::End::end_of_store, crate::specs::End::end_of_image, answers::specs::Image::told))]
pub fn of_number(a: Result<u64, Refusal>) -> u64
    ensures store { result ≡ word_of (end_of_store (told_number a)) }
    ensures image { result ≡ word_of (end_of_image (told a)) }
{
    match a {
        Ok(n) => n,
        Err(r) => minus(r),
    }
}

// Fresh answers that it is done, as 0.
#[tactic(auto, unfolding(crate::specs::Words::word_of, crate::specs::End::end_of_store))]
pub fn of_done(a: Result<(), Refusal>) -> u64
    ensures { result ≡ word_of (end_of_store (told_done a)) }
{
    match a {
        Ok(()) => 0,
        Err(r) => minus(r),
    }
}

// What check answers: S, and N from bit 40 on.
#[tactic(auto, unfolding(crate::specs::Words::word_of, crate::specs::End::end_of_check, answers::specs::Image::ruled))]
pub fn of_check(a: Result<Contents, Refusal>) -> u64
    ensures { result ≡ word_of (end_of_check (ruled a)) }
{
    match a {
        Ok(c) => pair(40, c.total, c.hours),
        Err(r) => minus(r),
    }
}

// The busiest stretch: its sum, and its first hour from bit 40 on.
#[tactic(auto, unfolding(crate::specs::Words::word_of, crate::specs::End::end_of_stretch))]
pub fn of_stretch(a: Result<Stretch, Refusal>) -> u64
    ensures { result ≡ word_of (end_of_stretch (told_stretch a)) }
{
    match a {
        Ok(s) => pair(40, s.total, s.first),
        Err(r) => minus(r),
    }
}

// The hours of a bag: the first hour, and how many there are from bit 32 on. 0 says that no run has its sum.
#[tactic(auto, unfolding(crate::specs::Words::word_of, crate::specs::End::end_of_bag))]
pub fn of_bag(a: Result<Option<Run>, Refusal>) -> u64
    ensures { result ≡ word_of (end_of_bag (told_bag a)) }
{
    match a {
        Ok(Some(run)) => pair(32, run.first, run.hours),
        Ok(None) => 0,
        Err(r) => minus(r),
    }
}
