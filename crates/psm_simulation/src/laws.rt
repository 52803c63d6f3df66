//! The law of code that stands for a module.
ghost use Rattle.std.specs.Prelude.{◌≡◌, ℕ, List, Some, None, slice_get};
ghost use Rattle.psm_value.specs.declared.datum.Datum.{Datum};
ghost use Rattle.psm_table.specs.Table.{Contents};
ghost use Rattle.psm_resolved.specs.declared.file.ResolvedFile.{ResolvedFile};
ghost use Rattle.psm_resolved.specs.declared.file.ResolvedRoutine.{ResolvedRoutine};
ghost use Rattle.psm_meaning.specs.Calls.{activated};
ghost use Rattle.psm_meaning.specs.Meaning.{meaning};
ghost use Rattle.psm_code.specs.declared.code.RawCode.{RawCode};
ghost use Rattle.psm_simulation.specs.Running.{RunsAs, first};
ghost use Rattle.psm_simulation.specs.Simulation.{FileStands};

/// Code that stands for a module file does what the module means: a run of the code of a procedure ends as the procedure does, with
/// the same values of its OUT and INOUT parameters or the same condition, the same tables, and as many turns left, with any fuel
/// that is great enough for the meaning.
pub fn code_does_what_its_module_means()
    ensures { (file : ResolvedFile) (code : RawCode) → FileStands file code → (n : ℕ) (routine : ResolvedRoutine) → slice_get file.routines n ≡ Some routine → routine.returns ≡ None → (args : List Datum) (tables : List Contents) (turns h : ℕ) → RunsAs code n args tables turns routine.parameters (activated routine args (meaning file h) (first tables turns)).given (activated routine args (meaning file h) (first tables turns)).state }
{}
