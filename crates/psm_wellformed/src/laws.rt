//! The laws of well-formed module files.
ghost use Rattle.std.specs.Prelude.{All, map};
ghost use Rattle.psm_table.specs.Definition.{IsDefinition};
ghost use Rattle.psm_resolved.specs.declared.file.ResolvedFile.{ResolvedFile};
ghost use Rattle.psm_codegen.specs.Standing.{CanStand};
ghost use Rattle.psm_typing.specs.Files.{IsWellTyped};
ghost use Rattle.psm_wellformed.specs.Files.{WellFormedFile};

/// A well-formed file is well-typed, so that it is never stuck.
pub fn well_formed_files_are_well_typed()
    ensures { (file : ResolvedFile) → WellFormedFile file → IsWellTyped file }
{}

/// Code can stand for a well-formed file.
pub fn well_formed_files_can_stand()
    ensures { (file : ResolvedFile) → WellFormedFile file → CanStand file }
{}

/// The tables of a well-formed file are defined as tables may be.
pub fn well_formed_tables_are_definitions()
    ensures { (file : ResolvedFile) → WellFormedFile file → All IsDefinition (map (λ t. t.definition) file.tables) }
{}
