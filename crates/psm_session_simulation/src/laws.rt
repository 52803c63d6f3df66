//! The law of what a script runs over code.
ghost use Rattle.std.specs.Prelude.{◌≡◌, ◌≤◌, ◌+◌, ◌++◌, ℕ, suc, List, [], ◌∷◌, length};
ghost use Rattle.psm_resolved.specs.declared.file.ResolvedFile.{ResolvedFile};
ghost use Rattle.psm_meaning.specs.Acts.{NoTurns};
ghost use Rattle.psm_meaning.specs.Fuel.{fuel_for, session};
ghost use Rattle.psm_meaning.specs.Lines.{first_line};
ghost use Rattle.psm_meaning.specs.Meaning.{meaning};
ghost use Rattle.psm_meaning.specs.Session.{Command, Cut, Done, CommandResult, Standing, Stopped, at_start, command_name, commands_from, command_result};
ghost use Rattle.psm_code.specs.declared.code.RawCode.{RawCode};
ghost use Rattle.psm_simulation.specs.Simulation.{FileStands};
ghost use Rattle.psm_typing.specs.Files.{IsWellTyped};
ghost use Rattle.psm_typing.specs.States.{AreFilled};
ghost use Rattle.psm_session.specs.declared.command.ScriptCommand.{ScriptCommand};
ghost use Rattle.psm_session.specs.CommandSteps.{CommandExecutes, Runs};
ghost use Rattle.psm_session_simulation.specs.Pieces.{following};
ghost use Rattle.psm_session_simulation.specs.Standing.{CommandStands, CommandsStand};

/// Over code that stands for a well-typed module file, a command of the machine has the result that the script's command means, whether
/// it goes on or stops: the same piece of text, and the same tables and turns left, with any fuel that is enough for the turns. So do commands one
/// after another, and a whole script from empty tables on. Where all of its commands are run, their pieces are those of the session,
/// and so are the tables and the turns that are left. Where the turns run out in a command, the session is cut there, and its tables
/// are those before that command. Whatever was run by then, the pieces of the session begin with its pieces.
pub fn code_runs_what_its_module_means()
    ensures command { (file : ResolvedFile) (code : RawCode) → FileStands file code → IsWellTyped file → (h k : ℕ) (s : Standing) → AreFilled file.tables s.tables → fuel_for file s.turns ≤ h → (c : Command) (d : ScriptCommand) → CommandStands file code c d → (p : CommandResult) → CommandExecutes code k s d p → command_result file (meaning file h) (first_line k (command_name file c)) s c ≡ p }
    ensures commands { (file : ResolvedFile) (code : RawCode) → FileStands file code → IsWellTyped file → (h k : ℕ) (s : Standing) → AreFilled file.tables s.tables → AreFilled file.tables s.committed → fuel_for file s.turns ≤ h → (cs : List Command) (ds : List ScriptCommand) → CommandsStand file code cs ds → (pieces : List (List ℕ)) (t : Standing) → Runs code k s ds pieces t → (later : List Command) → commands_from file (meaning file h) k (cs ++ later) s ≡ following pieces (commands_from file (meaning file h) (k + length cs) later t) }
    ensures done { (file : ResolvedFile) (code : RawCode) → FileStands file code → IsWellTyped file → (cs : List Command) (ds : List ScriptCommand) → CommandsStand file code cs ds → (turns : ℕ) (pieces : List (List ℕ)) (t : Standing) → Runs code 1 (at_start file turns) ds pieces t → session file cs turns ≡ record { pieces = pieces; tables = t.tables; turns = t.turns; end = Done } }
    ensures cut { (file : ResolvedFile) (code : RawCode) → FileStands file code → IsWellTyped file → (cs : List Command) (ds : List ScriptCommand) → CommandsStand file code cs ds → (turns : ℕ) (first : List ScriptCommand) (d : ScriptCommand) (later : List ScriptCommand) → ds ≡ first ++ d ∷ later → (pieces : List (List ℕ)) (t : Standing) (piece : List ℕ) → Runs code 1 (at_start file turns) first pieces t → CommandExecutes code (length first + 1) t d (Stopped NoTurns (piece ∷ [])) → session file cs turns ≡ record { pieces = pieces ++ piece ∷ []; tables = t.tables; turns = 0; end = Cut NoTurns } }
    ensures begun { (file : ResolvedFile) (code : RawCode) → FileStands file code → IsWellTyped file → (cs : List Command) (ds : List ScriptCommand) → CommandsStand file code cs ds → (turns : ℕ) (first later : List ScriptCommand) → ds ≡ first ++ later → (pieces : List (List ℕ)) (t : Standing) → Runs code 1 (at_start file turns) first pieces t → (more : List (List ℕ)) × ((session file cs turns).pieces ≡ pieces ++ more) }
{}
