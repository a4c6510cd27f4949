// The soundness check of the live store, and what it passes.
#![tactic(auto)]

mod walk;

ghost use Rattle.std.specs.Prelude.{◌≡◌, MatchResult, false, true};
ghost use Rattle.answers.specs.Number.{number};
ghost use Rattle.answers.specs.Refusals.{store_not_sound};
ghost use Rattle.answers.specs.Store.{refused};
ghost use Rattle.store.specs.Call.{Called};
ghost use Rattle.store.specs.Plain.{Call};
ghost use Rattle.store.specs.Sound.{sound as is_sound};

use answers::refusal::Refusal;
use reserve_table::ReserveTable;
use store::sound::Sound;

// Whether the bytes are a sound store. It ends on every content, and looks at no cell twice.
pub fn check(s: &[u8]) -> bool
    ensures { result ≡ is_sound s.now }
{
    if !sound_head::head_fits(s) {
        return false;
    }
    walk::chains_fit(s, &ReserveTable::new())
}

// The store, if it is sound; else it is turned down, whatever is asked of it.
pub fn sound(s: &[u8]) -> Result<Sound, Refusal>
    ensures found { MatchResult result (λ t. t.bytes.now ≡ s.now) (λ r. (c : Call) → Called c s.now (refused (number r)) s.now) }
    ensures unsound { MatchResult result (λ _. is_sound s.now ≡ true) (λ r. (is_sound s.now ≡ false) × (number r ≡ store_not_sound)) }
{
    if check(s) {
        Ok(Sound { bytes: s })
    } else {
        Err(Refusal::Unsound)
    }
}
