//! What holds of every grammar.
ghost use Rattle.std.specs.Prelude.{◌≡◌, ℕ, ◌+◌, true, List, Option};
ghost use Rattle.psm_grammar.specs.Language.{Words, toks};
ghost use Rattle.psm_grammar.specs.Grammar.{Spells};
ghost use Rattle.psm_grammar.specs.Readers.{Out, reads};
ghost use Rattle.psm_grammar.specs.Exact.{AtEnd, Holds};
ghost use Rattle.psm_grammar.specs.Follow.{fits, IsReadable};
ghost use Rattle.psm_grammar.specs.Plain.{Plain, Tree, grammar, grammars};

/// The laws of grammars that are read by their first tokens.
pub fn grammar_laws()
    // What the reader with n more levels answers is exact for the grammar without limit.
    ensures exact { (prods : ℕ → Plain) (after : ℕ → Option (List ℕ)) (height : ℕ) → IsReadable (grammars prods) after height → (p : Plain) (follow : List ℕ) → fits after follow (grammar p) ≡ true → (d n : ℕ) (ts : List ℕ) → Holds (Spells (grammars prods) d (grammar p)) AtEnd (d + n) ts (reads (grammars prods) n (grammar p) ts) }
    // No other answer is.
    ensures only { (prods : ℕ → Plain) (after : ℕ → Option (List ℕ)) (height : ℕ) → IsReadable (grammars prods) after height → (p : Plain) (follow : List ℕ) → fits after follow (grammar p) ≡ true → (d n : ℕ) (ts : List ℕ) (o : Out ℕ Tree) → Holds (Spells (grammars prods) d (grammar p)) AtEnd (d + n) ts o → o ≡ reads (grammars prods) n (grammar p) ts }
    // Two derivations of the same tokens read each of them at the same level, and have the same value.
    ensures one_tree { (prods : ℕ → Plain) (after : ℕ → Option (List ℕ)) (height : ℕ) → IsReadable (grammars prods) after height → (p : Plain) (follow : List ℕ) → fits after follow (grammar p) ≡ true → (d : ℕ) (w v : Words ℕ) (x y : Tree) → Spells (grammars prods) d (grammar p) w x → Spells (grammars prods) d (grammar p) v y → toks w ≡ toks v → (w ≡ v) × (x ≡ y) }
{}
