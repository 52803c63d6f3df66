//! Laws of what bytes are.
ghost use Rattle.std.specs.Prelude.{◌≡◌, ℕ, List};
ghost use Rattle.psm_code.specs.declared.code.RawCode.{RawCode};
ghost use Rattle.psm_meaning.specs.Session.{Session};
ghost use Rattle.psm_build.specs.ModuleCode.{MeansModule};
ghost use Rattle.psm_build.specs.Once.{Exclusive, IsEnd, Total};
ghost use Rattle.psm_build.specs.Program.{EndsIn, IsModuleFault, IsModuleFile, IsScriptFault, IsScriptFile, StandsFor};

/// The bytes of a file are at most one thing: a module file or the one first fault of one, and, over a module file, a script or the one
/// first fault of one. A module file and a script over it end in one session with a number of turns, and it ends after the last
/// command or where the turns run out, and in no other way.
pub fn files_are_one_thing()
    ensures modules { (ms : List ℕ) → Exclusive (IsModuleFile ms) (IsModuleFault ms) }
    ensures scripts { (ms ss : List ℕ) → Exclusive (IsScriptFile ms ss) (IsScriptFault ms ss) }
    ensures sessions { (ms ss : List ℕ) (turns : ℕ) (a b : Session) → EndsIn ms ss turns a → EndsIn ms ss turns b → a ≡ b }
    ensures ends { (ms ss : List ℕ) (turns : ℕ) (s : Session) → EndsIn ms ss turns s → IsEnd s.end }
{}

/// The bytes of a file are at least one thing: a module file or a first fault of one, and, over a module file, a script or a first
/// fault of one. A module file and a script over it have a session with each number of turns.
pub fn files_are_something()
    ensures modules { (ms : List ℕ) → Total (IsModuleFile ms) (IsModuleFault ms) }
    ensures scripts { (ms ss : List ℕ) → IsModuleFile ms → Total (IsScriptFile ms ss) (IsScriptFault ms ss) }
    ensures sessions { (ms ss : List ℕ) (turns : ℕ) → IsScriptFile ms ss → (s : Session) × EndsIn ms ss turns s }
{}

/// Code that stands for a module file has its tables and procedures, a script has the same first fault over both, and each run of
/// an accepted script over the code shows the session over the file, whatever the number of turns.
pub fn code_means_its_module()
    ensures { (ms : List ℕ) (code : RawCode) → StandsFor ms code → MeansModule ms code }
{}
