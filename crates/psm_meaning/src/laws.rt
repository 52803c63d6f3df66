//! Laws of the meaning.
ghost use Rattle.std.specs.Prelude.{ℕ, ◌≡◌, ◌≢◌, ◌≤◌, List};
ghost use Rattle.std.specs.List.{Contains};
ghost use Rattle.psm_value.specs.declared.datum.Datum.{Datum};
ghost use Rattle.psm_resolved.specs.declared.expr.ResolvedExpr.{ResolvedExpr};
ghost use Rattle.psm_resolved.specs.declared.file.ResolvedFile.{ResolvedFile};
ghost use Rattle.psm_resolved.specs.declared.file.ResolvedRoutine.{ResolvedRoutine};
ghost use Rattle.psm_resolved.specs.declared.statement.ResolvedStatement.{ResolvedStatement};
ghost use Rattle.psm_meaning.specs.Acts.{Do, Ends, OutOfFuel, Stopped};
ghost use Rattle.psm_meaning.specs.Calls.{activated};
ghost use Rattle.psm_meaning.specs.Enough.{AreWithin};
ghost use Rattle.psm_meaning.specs.Fits.{Fits, SameSession};
ghost use Rattle.psm_meaning.specs.Fuel.{expr_size, file_size, fuel_for, session, statement_size};
ghost use Rattle.psm_meaning.specs.Meaning.{meaning};
ghost use Rattle.psm_meaning.specs.Session.{Command, Cut, session_to};
ghost use Rattle.psm_meaning.specs.State.{EvalContext, State};

/// More fuel changes nothing where the fuel was enough: no value of an expression, no end of a statement, and
/// nothing that a script prints or leaves.
pub fn more_fuel_changes_nothing()
    ensures parts { (file : ResolvedFile) (h k : ℕ) → h ≤ k → Fits (meaning file h) (meaning file k) }
    ensures sessions { (file : ResolvedFile) (h k : ℕ) → h ≤ k → (commands : List Command) (turns : ℕ) → SameSession (session_to file h commands turns) (session_to file k commands turns) }
{}

/// The fuel of a file is enough: from that of the turns that are left on, no expression and no statement that is no greater
/// than the file, no activation of a routine and no script wants more. So a script over a module file means one thing.
pub fn fuel_of_a_file_is_enough()
    ensures values { (file : ResolvedFile) (h : ℕ) (e : ResolvedExpr) (st : State) → expr_size e ≤ file_size file → fuel_for file st.turns ≤ h → ((meaning file h).value e st).given ≢ Ends OutOfFuel }
    ensures statements { (file : ResolvedFile) (h : ℕ) (s : ResolvedStatement) (eval_context : EvalContext) (st : State) → statement_size s ≤ file_size file → AreWithin file eval_context.scopes → fuel_for file st.turns ≤ h → ((meaning file h).done (Do s) eval_context st).outcome ≢ Stopped OutOfFuel }
    ensures activations { (file : ResolvedFile) (h : ℕ) (r : ResolvedRoutine) (args : List Datum) (st : State) → Contains file.routines r → fuel_for file st.turns ≤ h → (activated r args (meaning file h) st).given ≢ Ends OutOfFuel }
    ensures sessions { (file : ResolvedFile) (h : ℕ) (commands : List Command) (turns : ℕ) → fuel_for file turns ≤ h → (session_to file h commands turns).end ≢ Cut OutOfFuel }
    ensures one_session { (file : ResolvedFile) (h : ℕ) (commands : List Command) (turns : ℕ) → fuel_for file turns ≤ h → session_to file h commands turns ≡ session file commands turns }
{}
