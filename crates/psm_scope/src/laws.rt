//! What holds of the choice of a function.
ghost use Rattle.std.specs.Prelude.{◌≡◌, ◌<◌, ℕ, true, length, List, ◌∷◌};
ghost use Rattle.std.specs.List.{list_all};
ghost use Rattle.psm_scope.specs.declared.kinds.ArgKind.{ArgKind};
ghost use Rattle.psm_scope.specs.Choice.{Candidate, Signature, chosen, narrowed, only};
ghost use Rattle.psm_scope.specs.Exact.{exact, is_typed};
ghost use Rattle.psm_scope.specs.Pass.{added, least_in_order};

/// Narrowing parameter by parameter keeps the least candidates in one order: that of their kinds, from the left, where the argument
/// isn't NULL.
pub fn narrowing_keeps_the_least()
    ensures { (args : List ArgKind) (cs : List Candidate) → narrowed 0 args cs ≡ least_in_order 0 args cs }
{}

/// So one more candidate is compared with one of those that stay, and stays alone, stays with them, or is passed over.
pub fn one_candidate_more()
    ensures { (args : List ArgKind) (c : Candidate) (cs : List Candidate) → narrowed 0 args (c ∷ cs) ≡ added 0 args c (narrowed 0 args cs) }
{}

/// An argument's own kind is the lowest that it goes to. So where no argument is NULL, the functions with exactly the arguments' kinds
/// stay, if there are any.
pub fn exact_kinds_stay()
    ensures { (routines : List Signature) (name : List ℕ) (args : List ArgKind) → list_all is_typed args ≡ true → 0 < length (exact 0 name args routines) → chosen routines name args ≡ only (exact 0 name args routines) }
{}
