// Lists of numbers: the definitions and laws that the other crates share, and a choice between two numbers.
#![tactic(auto)]

ghost use Rattle.std.specs.Prelude.{◌≡◌};
ghost use Rattle.lists.specs.Lists.{pick};

// The first of two numbers where c is true, else the second. Both are at hand, so that the compiler needs no jump. Std's
// `select_unpredictable` is the same for any type; this one says `pick`, the word that the definitions choose by.
pub fn either(c: bool, a: u64, b: u64) -> u64
    ensures { result ≡ pick c a b }
{
    if c { a } else { b }
}
