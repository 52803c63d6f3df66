//! What well-formed code gives to those that run it.
ghost use Rattle.std.specs.Prelude.{◌≡◌, All, IfSome, IsTrue, None, []};
ghost use Rattle.psm_value.specs.SqlType.{IsType};
ghost use Rattle.psm_cond.specs.WellFormed.{is_numbered};
ghost use Rattle.psm_exprcode.specs.declared.op.Op.{Op};
ghost use Rattle.psm_exprcode.specs.Fits.{Fits};
ghost use Rattle.psm_code.specs.declared.code.RawCode.{RawCode};
ghost use Rattle.psm_code.specs.declared.code.RawRoutine.{RawRoutine};
ghost use Rattle.psm_code.specs.declared.instruction.Instruction.TheVariants as instruction;
ghost use Rattle.psm_code.specs.Parts.{slots_of};
ghost use Rattle.psm_code.specs.RoutineRules.{first_fault};
ghost use Rattle.psm_code.specs.MachineInvariant.{MachineInvariant};
ghost use Rattle.psm_code.specs.State.{Machine};
ghost use Rattle.psm_unwind.specs.Raising.{HasWellFormedHandlers};

/// In well-formed code the types of slots and of results are types, and the contexts and handlers fit together, where 32 bits
/// are enough to number them. An operation finds what it needs wherever the machine is as it always is.
pub fn what_well_formed_code_gives()
    ensures slots { (code : RawCode) → first_fault code ≡ None → All (λ (r : RawRoutine). All IsType (slots_of r)) code.routines }
    ensures results { (code : RawCode) → first_fault code ≡ None → All (λ (r : RawRoutine). IfSome r.returns IsType) code.routines }
    ensures handlers { (code : RawCode) → first_fault code ≡ None → All (λ (r : RawRoutine). IsTrue (is_numbered r.handlers)) code.routines → HasWellFormedHandlers code }
    ensures operations { (code : RawCode) → first_fault code ≡ None → (m : Machine) (h : MachineInvariant code m) (o : Op) → h.running.line.instruction ≡ instruction.Operation o → Fits o m.running.operands [] m.running.variables }
{}
