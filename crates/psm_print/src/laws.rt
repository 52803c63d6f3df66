//! What holds of the grammar where places are forgotten.
ghost use Rattle.std.specs.Prelude.{◌≡◌, ℕ, List, map};
ghost use Rattle.psm_token.specs.declared.token.Placed.{Placed};
ghost use Rattle.psm_grammar.specs.Language.{Words, toks};
ghost use Rattle.psm_grammar.specs.Grammar.{Spells};
ghost use Rattle.psm_grammar.specs.Places.{moved};
ghost use Rattle.psm_tree.specs.Productions.{productions};
ghost use Rattle.psm_tree.specs.ExprGrammar.{expr};
ghost use Rattle.psm_tree.specs.StatementGrammar.{statement};
ghost use Rattle.psm_tree.specs.FileGrammar.{file, script};
ghost use Rattle.psm_tree.specs.declared.expr.Expr.{Expr as ExprTree};
ghost use Rattle.psm_tree.specs.declared.statement.Statement.{Statement as StatementTree};
ghost use Rattle.psm_tree.specs.declared.file.FileTree.{FileTree as TheFile};
ghost use Rattle.psm_tree.specs.declared.script.ScriptTree.{ScriptTree as TheScript};
ghost use Rattle.psm_print.specs.WithoutPositions.{without_positions};
ghost use Rattle.psm_print.specs.Elsewhere.{SpellsUpToPositions};
ghost use Rattle.psm_print.specs.ExprWithoutPositions.{expr_without_positions};
ghost use Rattle.psm_print.specs.StatementWithoutPositions.{statement_without_positions};
ghost use Rattle.psm_print.specs.FileWithoutPositions.{file_without_positions, script_without_positions};

/// Tokens that are the same, up to positions, spell trees that are the same, up to positions: of files and
/// scripts, and of expressions and statements at each depth of nesting.
pub fn one_tree_up_to_positions()
    ensures of_file { (w v : Words Placed) (x y : TheFile) → Spells productions 0 file w x → Spells productions 0 file v y → map without_positions (toks w) ≡ map without_positions (toks v) → file_without_positions x ≡ file_without_positions y }
    ensures of_script { (w v : Words Placed) (x y : TheScript) → Spells productions 0 script w x → Spells productions 0 script v y → map without_positions (toks w) ≡ map without_positions (toks v) → script_without_positions x ≡ script_without_positions y }
    ensures of_expr { (depth : ℕ) (w v : Words Placed) (x y : ExprTree) → Spells productions depth expr w x → Spells productions depth expr v y → map without_positions (toks w) ≡ map without_positions (toks v) → expr_without_positions x ≡ expr_without_positions y }
    ensures of_statement { (depth : ℕ) (w v : Words Placed) (x y : StatementTree) → Spells productions depth statement w x → Spells productions depth statement v y → map without_positions (toks w) ≡ map without_positions (toks v) → statement_without_positions x ≡ statement_without_positions y }
{}

/// Tokens without their places spell the tree without its places: what is forgotten of a tree are places
/// alone, and nothing that another tree of the grammar has.
pub fn trees_without_places()
    ensures of_file { (w : Words Placed) (x : TheFile) → Spells productions 0 file w x → Spells productions 0 file (moved without_positions w) (file_without_positions x) }
    ensures of_script { (w : Words Placed) (x : TheScript) → Spells productions 0 script w x → Spells productions 0 script (moved without_positions w) (script_without_positions x) }
    ensures of_expr { (depth : ℕ) (w : Words Placed) (x : ExprTree) → Spells productions depth expr w x → Spells productions depth expr (moved without_positions w) (expr_without_positions x) }
    ensures of_statement { (depth : ℕ) (w : Words Placed) (x : StatementTree) → Spells productions depth statement w x → Spells productions depth statement (moved without_positions w) (statement_without_positions x) }
{}

/// Tokens that are those of a tree, up to positions, spell a tree that is the same, up to positions.
pub fn trees_at_other_places()
    ensures of_file { (w : Words Placed) (x : TheFile) (ts : List Placed) → Spells productions 0 file w x → map without_positions ts ≡ map without_positions (toks w) → SpellsUpToPositions file file_without_positions 0 ts x }
    ensures of_script { (w : Words Placed) (x : TheScript) (ts : List Placed) → Spells productions 0 script w x → map without_positions ts ≡ map without_positions (toks w) → SpellsUpToPositions script script_without_positions 0 ts x }
    ensures of_expr { (depth : ℕ) (w : Words Placed) (x : ExprTree) (ts : List Placed) → Spells productions depth expr w x → map without_positions ts ≡ map without_positions (toks w) → SpellsUpToPositions expr expr_without_positions depth ts x }
    ensures of_statement { (depth : ℕ) (w : Words Placed) (x : StatementTree) (ts : List Placed) → Spells productions depth statement w x → map without_positions ts ≡ map without_positions (toks w) → SpellsUpToPositions statement statement_without_positions depth ts x }
{}
