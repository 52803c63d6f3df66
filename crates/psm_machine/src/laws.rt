//! What well-formed code has.
ghost use Rattle.std.specs.Prelude.{◌≡◌, ℕ, List, IfSome, None, Ok, Some, slice_get, slice_set};
ghost use Rattle.psm_value.specs.declared.datum.Datum.{Datum};
ghost use Rattle.psm_table.specs.Changing.{Changed};
ghost use Rattle.psm_table.specs.Cursors.{Cursor};
ghost use Rattle.psm_table.specs.Keyed.{are_keyed_with, rows_in};
ghost use Rattle.psm_table.specs.Table.{Contents};
ghost use Rattle.psm_code.specs.declared.code.CodeTable.{CodeTable};
ghost use Rattle.psm_code.specs.declared.code.RawCode.{RawCode};
ghost use Rattle.psm_code.specs.declared.code.RawRoutine.{RawRoutine};
ghost use Rattle.psm_code.specs.RoutineRules.{first_fault};
ghost use Rattle.psm_code.specs.MachineInvariant.{AreLawful};
ghost use Rattle.psm_machine.specs.Allowed.{MayAsk, MayDo, MayMove, MayOpen, MayPut, OfCursor, RunsWellFormed};
ghost use Rattle.psm_machine.specs.Inserting.{put_expected};

/// A routine of well-formed code, over tables, variables and cursors that are as the code declares them, has what its queries,
/// its cursors and its plans ask.
pub fn well_formed_code_may_run()
    ensures asks { (code : RawCode) (r : RawRoutine) (tables : List Contents) (vars : List Datum) (cursors : List Cursor) → RunsWellFormed code r tables vars cursors → (n : ℕ) → IfSome (slice_get r.queries n) (MayAsk tables vars) }
    ensures opens { (code : RawCode) (r : RawRoutine) (tables : List Contents) (vars : List Datum) (cursors : List Cursor) → RunsWellFormed code r tables vars cursors → (n : ℕ) → IfSome (slice_get r.cursors n) (MayOpen r tables vars) }
    ensures moves { (code : RawCode) (r : RawRoutine) (tables : List Contents) (vars : List Datum) (cursors : List Cursor) → RunsWellFormed code r tables vars cursors → (n : ℕ) → OfCursor r cursors n (MayMove r tables) }
    ensures does { (code : RawCode) (r : RawRoutine) (tables : List Contents) (vars : List Datum) (cursors : List Cursor) → RunsWellFormed code r tables vars cursors → (n : ℕ) → IfSome (slice_get r.plans n) (MayDo code r tables vars cursors) }
{}

/// Rows may be put into each table of well-formed code, over tables that are as the code declares them, and these stay so with
/// the rows that are expected.
pub fn well_formed_code_may_put()
    ensures puts { (code : RawCode) (tables : List Contents) → first_fault code ≡ None → AreLawful code tables → (n : ℕ) → MayPut code tables n }
    ensures kept { (code : RawCode) (tables : List Contents) → first_fault code ≡ None → AreLawful code tables → (n : ℕ) (t : CodeTable) (c : Contents) → slice_get code.tables n ≡ Some t → slice_get tables n ≡ Some c → (columns : List ℕ) (rows : List (List Datum)) (changed : Changed) → put_expected (are_keyed_with code.keys (rows_in tables) n) t columns rows c ≡ Ok changed → AreLawful code (slice_set tables n (record c { rows = changed.rows })) }
{}
