//! Laws of listings.
ghost use Rattle.std.specs.Prelude.{◌≡◌, length, Some};
ghost use Rattle.psm_exprcode.specs.declared.op.Letter.{Letter};
ghost use Rattle.psm_exprcode.specs.Operations.{Effect};
ghost use Rattle.psm_code.specs.declared.code.RawCode.{RawCode};
ghost use Rattle.psm_code.specs.declared.code.RawRoutine.{RawRoutine};
ghost use Rattle.psm_code.specs.declared.instruction.Instruction.{Instruction};
ghost use Rattle.psm_code.specs.Instructions.{instruction_effect};
ghost use Rattle.psm_code.specs.RoutineRules.{code_faults};
ghost use Rattle.psm_object.specs.Instructions.{mnemonic};
ghost use Rattle.psm_object.specs.Listing.{lines_of};

/// A listing has a line for each entry of the rules of code, so the number of the first fault is that of a line.
pub fn rules_count_the_lines_of_a_listing()
    ensures { (code : RawCode) → length (lines_of code) ≡ length (code_faults code) }
{}

/// An instruction is called in a listing as in the table of instructions.
pub fn mnemonics_are_those_of_the_table()
    ensures { (code : RawCode) (r : RawRoutine) (i : Instruction) (k x : Letter) (e : Effect) → instruction_effect code r i k x ≡ Some e → e.mnemonic ≡ mnemonic i }
{}
