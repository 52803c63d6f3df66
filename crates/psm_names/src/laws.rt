//! The laws of name resolution.
ghost use Rattle.std.specs.Prelude.{◌≡◌, ℕ, [], ◌∷◌, List, None, Option, map};
ghost use Rattle.psm_scope.specs.declared.kinds.ArgKind.{ArgKind};
ghost use Rattle.psm_scope.specs.Routines.{function, procedure};
ghost use Rattle.psm_scope.specs.Scopes.{Compound, Spelling, undeclared};
ghost use Rattle.psm_rules.specs.CheckerScope.{SymbolTable};
ghost use Rattle.psm_rules.specs.FileFaults.{file_fault, no_symbols};
ghost use Rattle.psm_tree.specs.declared.expr.Expr.{Expr};
ghost use Rattle.psm_tree.specs.declared.expr.Select.{Select};
ghost use Rattle.psm_tree.specs.declared.file.FileTree.{FileTree};
ghost use Rattle.psm_tree.specs.declared.file.Routine.{Routine};
ghost use Rattle.psm_tree.specs.declared.file.TableTree.{TableTree};
ghost use Rattle.psm_tree.specs.declared.statement.CursorDeclaration.{CursorDeclaration};
ghost use Rattle.psm_tree.specs.declared.statement.Declaration.{Declaration};
ghost use Rattle.psm_tree.specs.declared.statement.ForHead.{ForHead};
ghost use Rattle.psm_resolve_expr.specs.Exprs.{resolve_expr, resolve_query};
ghost use Rattle.psm_resolve_expr.specs.ResolverScope.{ResolverScope};
ghost use Rattle.psm_resolve.specs.Files.{resolve_routine, resolved_file};
ghost use Rattle.psm_resolve.specs.SymbolTables.{known_symbols};
ghost use Rattle.psm_names.specs.DeclaredInFiles.{IsFunction, IsProcedure, NamesEachOnce, resolved_names, table_declared, table_names};
ghost use Rattle.psm_names.specs.DeclaredNames.{AreDeclared, CompoundHolds, ForHolds, NumbersEachOnce, RoutineHolds, in_order, own_condition};
ghost use Rattle.psm_names.specs.KeyOccurrences.{in_foreign_keys, in_key, in_uniques, of_foreign_key, of_key, of_uniques};
ghost use Rattle.psm_names.specs.Occurrences.{EnclosingScopes, Site, looked_up};
ghost use Rattle.psm_names.specs.Referents.{together};
ghost use Rattle.psm_names.specs.ExprOccurrences.{expr_occurrences, query_occurrences};
ghost use Rattle.psm_names.specs.ExprReferents.{expr_referents, query_referents};
ghost use Rattle.psm_names.specs.FileOccurrences.{AreNew, functions_in, in_checks, known_table, of_checks, procedure_from, results_in};
ghost use Rattle.psm_names.specs.Declaring.{Ordinals};
ghost use Rattle.psm_names.specs.Sites.{site_of};
ghost use Rattle.psm_names.specs.StatementOccurrences.{routine_occurrences};
ghost use Rattle.psm_names.specs.StatementReferents.{routine_referents};

/// In a resolved routine, each name has become what the look-up of scopes gives for it where it stands, and each declaration its
/// ordinal: a variable's is its slot, with those of the parameters first (ISO/IEC 9075-4:1996, compound statements).
pub fn names_are_resolved()
    ensures { (symbols : SymbolTable) (r : Routine) → routine_referents (resolve_routine symbols r) ≡ looked_up symbols (routine_occurrences symbols r) }
{}

/// The same of an expression and a query, wherever they stand.
pub fn names_in_expressions_are_resolved()
    ensures expressions { (e : Expr) (s : ResolverScope) → expr_referents (resolve_expr e s).expr ≡ looked_up s.symbols (expr_occurrences e (site_of s)) }
    ensures queries { (q : Select) (s : ResolverScope) → query_referents (resolve_query q s).query ≡ looked_up s.symbols (query_occurrences q (site_of s)) }
{}

/// The same of the routines of a file and of the CHECKs of its tables. The number of a table is its index, where no two
/// have one name. The number of a procedure is its index among the procedures
/// of the file, of which the first with a name and a number of parameters counts, and that of a function its index among the functions.
pub fn names_in_files_are_resolved()
    ensures routines { (f : FileTree) → map routine_referents (resolved_file f).routines ≡ map (λ r. looked_up (known_symbols f) (routine_occurrences (known_symbols f) r)) f.«module».routines }
    ensures checks { (f : FileTree) → map of_checks (resolved_file f).tables ≡ map (λ t. looked_up no_symbols (in_checks t)) f.tables }
    ensures tables { (f : FileTree) → AreNew [] f.tables → (known_symbols f).tables ≡ map known_table f.tables }
    ensures procedures { (f : FileTree) (n : Spelling) (count : ℕ) → procedure n count (known_symbols f).procedures ≡ procedure_from 0 n count f.«module».routines }
    ensures functions { (f : FileTree) → (known_symbols f).functions.signatures ≡ functions_in f.«module».routines }
    ensures results { (f : FileTree) → (known_symbols f).functions.results ≡ results_in f.«module».routines }
{}

/// In a routine each number is that of one declaration: the slots are those of the parameters and of the variables, in the order of
/// their declarations, and so are the numbers of the cursors. Condition number k is the one of the declarations of conditions
/// without an SQLSTATE before which k others stand (ISO/IEC 9075-4:1996, compound statements).
pub fn each_number_is_of_one_declaration()
    ensures variables_and_cursors { (symbols : SymbolTable) (r : Routine) → NumbersEachOnce (resolve_routine symbols r) }
    ensures conditions { (symbols : SymbolTable) (r : Routine) → together (map own_condition (routine_occurrences symbols r)) ≡ in_order 0 (resolve_routine symbols r).conditions }
{}

/// Where look-up finds a variable, a cursor, a condition or a label for a name, the declaration with that number stands before the
/// name and declares it. Where it finds a column or a table, the one with that number has the name. So two names of a routine have
/// one number exactly if look-up finds one declaration for them.
pub fn names_mean_declarations_before_them()
    ensures routines { (symbols : SymbolTable) (r : Routine) → AreDeclared symbols [] (routine_occurrences symbols r) }
    ensures checks { (t : TableTree) → AreDeclared no_symbols [] (in_checks t) }
{}

/// The scope of a compound statement, wherever it stands, has of each name the first declaration in the statement; so it is with the
/// variables and the cursor of a FOR statement and with the parameters of a routine. The scopes around stay. So of two declarations of
/// one name look-up finds the one in whose scope the name stands, the innermost first.
pub fn scopes_hold_what_is_declared()
    ensures compound_statements { (symbols : SymbolTable) (label : Option Spelling) (scopes : EnclosingScopes) (n : Ordinals) (xs : List Declaration) (cursors : List CursorDeclaration) → CompoundHolds symbols (Compound label undeclared ∷ scopes, n) xs cursors scopes }
    ensures for_statements { (label : Option Spelling) (site : Site) (head : ForHead) (n : Ordinals) → ForHolds label site head n }
    ensures routines { (r : Routine) → RoutineHolds r }
{}

/// The tables, columns, procedures and functions with the numbers that look-up gives are those of the name, in the order of the source.
/// In an accepted file no two tables have one name and no two columns of a table, so each has its index as its number.
pub fn names_mean_what_the_file_declares()
    ensures once { (f : FileTree) → file_fault f ≡ None → NamesEachOnce f }
    ensures tables { (f : FileTree) → file_fault f ≡ None → (known_symbols f).tables ≡ map table_declared f.tables }
    ensures columns { (f : FileTree) → map resolved_names (resolved_file f).tables ≡ map table_names f.tables }
    ensures procedures { (f : FileTree) (n : Spelling) (count : ℕ) → IsProcedure f.«module».routines n count (procedure n count (known_symbols f).procedures) }
    ensures functions { (f : FileTree) (n : Spelling) (kinds : List ArgKind) → IsFunction f.«module».routines n kinds (function (known_symbols f).functions n kinds) }
{}

/// The columns of the primary key of a table, and those of each UNIQUE, are what look-up gives for their names among its columns, and
/// so are the columns of a FOREIGN KEY, the table that it refers to and the columns there (ISO/IEC 9075:1992, 11.8). A column that itself
/// is UNIQUE or REFERENCES a table is known by its place, which in an accepted file is what look-up gives for its name.
pub fn names_in_keys_are_resolved()
    ensures keys { (f : FileTree) → map of_key (resolved_file f).tables ≡ map (λ t. looked_up no_symbols (in_key t)) f.tables }
    ensures uniques { (f : FileTree) → file_fault f ≡ None → map of_uniques (resolved_file f).tables ≡ map (λ t. map (looked_up no_symbols) (in_uniques t)) f.tables }
    ensures foreign_keys { (f : FileTree) → file_fault f ≡ None → map of_foreign_key (resolved_file f).keys ≡ map (looked_up (known_symbols f)) (in_foreign_keys f) }
{}
