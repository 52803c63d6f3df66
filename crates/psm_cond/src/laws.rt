//! What holds of the choice of a handler and of scopes.
ghost use Rattle.std.specs.Prelude.{◌≡◌, ◌↔◌, ℕ, IsTrue, Option, Some, None, List, [], ◌∷◌};
ghost use Rattle.std.specs.List.{All};
ghost use Rattle.psm_cond.specs.declared.handlers.Block.{Block};
ghost use Rattle.psm_cond.specs.declared.handlers.Context.{Context};
ghost use Rattle.psm_cond.specs.declared.handlers.ContextKind.TheVariants as kind;
ghost use Rattle.psm_cond.specs.Tables.{HandlerTable};
ghost use Rattle.psm_cond.specs.Choice.{HasNoMatch, IsMostSpecific, chosen, chosen_in};
ghost use Rattle.psm_cond.specs.Handlers.{Numbered, context_at, outside, own_handlers, scopes};
ghost use Rattle.psm_cond.specs.WellFormed.{is_well_formed_table};

/// The handler that is chosen in a scope stands in it and matches, and none of the scope is more specific. None
/// is chosen exactly where none matches.
pub fn choice_is_most_specific()
    ensures chosen { (rank : Numbered → ℕ) (scope : List Numbered) (h : Numbered) → chosen_in rank scope ≡ Some h → IsMostSpecific rank scope h }
    ensures none { (rank : Numbered → ℕ) (scope : List Numbered) → (chosen_in rank scope ≡ None) ↔ HasNoMatch rank scope }
{}

/// Where the innermost scope has a match, the handler is chosen in it, and else further out. None is chosen
/// exactly where no scope has a match.
pub fn choice_is_innermost()
    ensures inner { (rank : Numbered → ℕ) (scope : List Numbered) (outer : List (List Numbered)) (h : Numbered) → chosen_in rank scope ≡ Some h → chosen rank (scope ∷ outer) ≡ Some h }
    ensures outer { (rank : Numbered → ℕ) (scope : List Numbered) (outer : List (List Numbered)) → HasNoMatch rank scope → chosen rank (scope ∷ outer) ≡ chosen rank outer }
    ensures none { (rank : Numbered → ℕ) (all : List (List Numbered)) → (chosen rank all ≡ None) ↔ All (HasNoMatch rank) all }
{}

/// The routine itself has no scope. A block has its own handlers, and then the scopes around it. An action has
/// the scopes outside the block that declares its handler.
pub fn scopes_go_outward()
    ensures routine { (t : HandlerTable) → scopes t 0 ≡ [] }
    ensures block { (t : HandlerTable) (k : ℕ) (c : Context) (b : Block) → IsTrue (is_well_formed_table t) → context_at t k ≡ Some c → c.kind ≡ kind.Block b → scopes t k ≡ own_handlers t k ∷ scopes t c.parent }
    ensures action { (t : HandlerTable) (k : ℕ) (c : Context) (handler : ℕ) → IsTrue (is_well_formed_table t) → context_at t k ≡ Some c → c.kind ≡ kind.Action handler → scopes t k ≡ scopes t (outside t handler) }
{}
