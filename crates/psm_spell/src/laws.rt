//! Laws of the tokens of a file.
ghost use Rattle.std.specs.Prelude.{ℕ, ◌≤◌, length, List as Seq};
ghost use Rattle.psm_spell.specs.Written.{AreSpellable, bare};
ghost use Rattle.psm_token.specs.Listed.{Tokens};
ghost use Rattle.psm_token.specs.Spells.{Spells};

/// The tokens of each file can be written, and there are at most 2,000,000 of them.
pub fn spelled_tokens()
    ensures spellable { (bytes : Seq ℕ) (ts : Tokens) → Spells bytes ts → AreSpellable (bare ts.tokens) }
    ensures short { (bytes : Seq ℕ) (ts : Tokens) → Spells bytes ts → length ts.tokens ≤ 2000000 }
{}
