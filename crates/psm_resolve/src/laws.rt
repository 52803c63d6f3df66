//! A law of the numbers.
ghost use Rattle.std.specs.Prelude.{◌≡◌};
ghost use Rattle.psm_rules.specs.CheckerScope.{SymbolTable};
ghost use Rattle.psm_tree.specs.declared.file.Routine.{Routine};
ghost use Rattle.psm_resolve.specs.Files.{resolve_routine};
ghost use Rattle.psm_resolve.specs.OwnNumbers.{HasNumbersOfItsOwn, own_conditions};

/// In a routine no two declarations share a number, whether or not one stands inside the other: the variables, those of FOR
/// statements too, have the slots after the parameters' in the order of their declarations, each slot once, and so have the
/// cursors their numbers from 0 (ISO/IEC 9075-4:1996, compound statements). Conditions without an SQLSTATE are numbered by their
/// places among their names, of which there is one for each declaration, in order.
pub fn each_declaration_has_a_number_of_its_own()
    ensures variables_and_cursors { (symbols : SymbolTable) (r : Routine) → HasNumbersOfItsOwn (resolve_routine symbols r) }
    ensures conditions { (symbols : SymbolTable) (r : Routine) → (resolve_routine symbols r).conditions ≡ own_conditions r.body }
{}
