//! The laws of accepted scripts over a module file and its code, and over well-formed code.
ghost use Rattle.std.specs.Prelude.{◌≡◌, All, List, None, map};
ghost use Rattle.psm_table.specs.Definition.{IsDefinition};
ghost use Rattle.psm_code.specs.declared.code.RawCode.{RawCode};
ghost use Rattle.psm_code.specs.RoutineRules.{first_fault};
ghost use Rattle.psm_resolved.specs.declared.file.ResolvedFile.{ResolvedFile};
ghost use Rattle.psm_tree.specs.declared.script.ScriptTree.{ScriptTree};
ghost use Rattle.psm_codegen.specs.Files.{FileWritten};
ghost use Rattle.psm_typing.specs.TypingContext.{Each};
ghost use Rattle.psm_typing.specs.Scripts.{IsCommand};
ghost use Rattle.psm_wellformed.specs.Files.{WellFormedFile};
ghost use Rattle.psm_checker_sound.specs.ScriptsStand.{ScriptStands};
ghost use Rattle.psm_check_script.specs.Checked.{script_of};
ghost use Rattle.psm_check_script.specs.Known.{known_of};
ghost use Rattle.psm_check_script.specs.ScriptFaults.{script_fault};
ghost use Rattle.psm_session.specs.declared.command.ScriptCommand.{ScriptCommand};
ghost use Rattle.psm_session.specs.Ends.{FitsCommand};
ghost use Rattle.psm_script_code.specs.FileKnown.{known_of_file};
ghost use Rattle.psm_script_code.specs.Made.{CommandsMade};
ghost use Rattle.psm_script_code.specs.WellFormed.{AsksTables, WellFormedCommand};

/// A script may name of the code that is written for a module file what it may name of the file.
pub fn scripts_name_the_same_of_a_file_and_its_code()
    ensures { (file : ResolvedFile) (code : RawCode) → FileWritten file code → known_of code ≡ known_of_file file }
{}

/// The commands of a script that has no fault over a well-formed module file are well-typed, so that they are never stuck, and the query of each
/// SELECT is well-formed where no routine runs (ISO/IEC 9075-4:1996, call statement, and ISO/IEC 9075:1992, 13.8 and 7.9). NULL has to
/// stand in the script where the grammar lets it stand.
pub fn accepted_scripts_are_well_typed()
    ensures well_typed { (file : ResolvedFile) → WellFormedFile file → (s : ScriptTree) → ScriptStands s → script_fault (known_of_file file) s ≡ None → Each (IsCommand file) (script_of (known_of_file file) s) }
    ensures well_formed { (file : ResolvedFile) → WellFormedFile file → (s : ScriptTree) → ScriptStands s → script_fault (known_of_file file) s ≡ None → Each (WellFormedCommand file) (script_of (known_of_file file) s) }
{}

/// What is made of the commands of a script that has no fault over the code of a well-formed module file may be run: each routine is there
/// and takes as many values, each table is there, and the code of each query fits its table. What that code means is what its query
/// means, since the query is of letters over the columns of the tables.
pub fn commands_of_accepted_scripts_fit_their_code()
    ensures fit { (file : ResolvedFile) (code : RawCode) → WellFormedFile file → FileWritten file code → (s : ScriptTree) → ScriptStands s → script_fault (known_of code) s ≡ None → (commands : List ScriptCommand) → CommandsMade code (script_of (known_of code) s) commands → All (FitsCommand code) commands }
    ensures letters { (file : ResolvedFile) (code : RawCode) → WellFormedFile file → FileWritten file code → (s : ScriptTree) → ScriptStands s → script_fault (known_of code) s ≡ None → Each (AsksTables code) (script_of (known_of code) s) }
{}

/// What is made of the commands of a script that has no fault over well-formed code may be run over it, whoever wrote the code: each
/// routine is there and takes as many values, each table is there, and the code of each query fits its table.
pub fn commands_of_accepted_scripts_fit_well_formed_code()
    ensures { (code : RawCode) → first_fault code ≡ None → (s : ScriptTree) → ScriptStands s → script_fault (known_of code) s ≡ None → (commands : List ScriptCommand) → CommandsMade code (script_of (known_of code) s) commands → All (FitsCommand code) commands }
{}

/// Well-formed code has definitions of tables alone, whoever wrote it: the types of their columns are within bounds, and each key is a
/// list of some columns that exist, of which none stands twice (ISO/IEC 9075:1992, 11.3 and 11.7).
pub fn the_tables_of_well_formed_code_are_definitions()
    ensures { (code : RawCode) → first_fault code ≡ None → All IsDefinition (map (λ t. t.definition) code.tables) }
{}
