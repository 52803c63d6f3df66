//! That a run of well-formed code ends.
ghost use Rattle.std.specs.Prelude.{◌≡◌, ℕ, ◌<◌, List, length, None, Some};
ghost use Rattle.psm_value.specs.declared.datum.Datum.{Datum};
ghost use Rattle.psm_table.specs.Table.{Contents};
ghost use Rattle.psm_code.specs.declared.code.RawCode.{RawCode};
ghost use Rattle.psm_code.specs.declared.code.RawRoutine.{RawRoutine};
ghost use Rattle.psm_code.specs.Parts.{routine_at, taking};
ghost use Rattle.psm_code.specs.RoutineRules.{first_fault};
ghost use Rattle.psm_code.specs.Run.{step, Ran};
ghost use Rattle.psm_code.specs.MachineInvariant.{AreLawful, MachineInvariant};
ghost use Rattle.psm_code.specs.State.{End, Machine, More, Over};
ghost use Rattle.psm_termination.specs.Measure.{Falls, Shape, steps_at_most, shape};

/// A run of well-formed code ends. At each row that goes on, the turns that are left fall; or else the number of running
/// activations and actions; or else the number of lines to the end of the routine, where a line that uses a turn counts as none. So
/// the number of rows that there may still be at most falls too. A row that ends the run uses no turn.
pub fn well_formed_code_ends()
    ensures falls { (code : RawCode) → first_fault code ≡ None → (m n : Machine) → MachineInvariant code m → step code m ≡ More n → Falls code (shape m) (shape n) }
    ensures fewer { (code : RawCode) (s t : Shape) → Falls code s t → steps_at_most code t < steps_at_most code s }
    ensures stays { (code : RawCode) → first_fault code ≡ None → (m last : Machine) (e : End) → MachineInvariant code m → step code m ≡ Over e last → last.turns ≡ m.turns }
    ensures ends { (code : RawCode) → first_fault code ≡ None → (routine : ℕ) (r : RawRoutine) → routine_at code routine ≡ Some r → (args : List Datum) (tables : List Contents) (turns : ℕ) → length args ≡ length (taking r.parameters) → AreLawful code tables → (e : End) × (last : Machine) × Ran code routine args tables turns e last }
{}
