//! Laws of the spelling.
ghost use Rattle.std.specs.Prelude.{◌≡◌, ℕ, List as Seq};
ghost use Rattle.psm_token.specs.Listed.{Tokens};
ghost use Rattle.psm_token.specs.Spells.{Spells, IsFirstFault};
ghost use Rattle.psm_token.specs.declared.fault.LexFault.{LexFault};

/// A file is at most one list of tokens, or it has at most one first fault, and not both.
pub fn one_list()
    ensures one { (bytes : Seq ℕ) (ts us : Tokens) → Spells bytes ts → Spells bytes us → ts ≡ us }
    ensures one_fault { (bytes : Seq ℕ) (f g : LexFault) → IsFirstFault bytes f → IsFirstFault bytes g → f ≡ g }
    ensures apart { (bytes : Seq ℕ) (f : LexFault) (ts : Tokens) → IsFirstFault bytes f → Spells bytes ts → ⊥ }
{}
