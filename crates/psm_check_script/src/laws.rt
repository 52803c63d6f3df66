//! A law of accepted scripts.
ghost use Rattle.std.specs.Prelude.{◌≡◌, None};
ghost use Rattle.std.specs.List.{AllByRecursion};
ghost use Rattle.psm_code.specs.declared.code.RawCode.{RawCode};
ghost use Rattle.psm_tree.specs.declared.script.ScriptTree.{ScriptTree};
ghost use Rattle.psm_check_script.specs.Checked.{script_of};
ghost use Rattle.psm_check_script.specs.Known.{known_of};
ghost use Rattle.psm_check_script.specs.ScriptFaults.{script_fault};
ghost use Rattle.psm_check_script.specs.There.{IsThere};

/// The procedures and the tables that the commands of an accepted script name by numbers are there in the code, and a CALL has as many
/// values as its procedure has parameters that take one.
pub fn accepted_commands_name_what_is_there()
    ensures { (c : RawCode) (s : ScriptTree) → script_fault (known_of c) s ≡ None → AllByRecursion (IsThere c) (script_of (known_of c) s) }
{}
