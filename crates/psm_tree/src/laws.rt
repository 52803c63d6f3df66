//! What holds of the grammar.
ghost use Rattle.std.specs.Prelude.{◌≡◌, ℕ};
ghost use Rattle.psm_token.specs.declared.token.Placed.{Placed};
ghost use Rattle.psm_grammar.specs.Language.{Words, toks};
ghost use Rattle.psm_grammar.specs.Grammar.{Spells};
ghost use Rattle.psm_tree.specs.Productions.{productions};
ghost use Rattle.psm_tree.specs.ExprGrammar.{expr};
ghost use Rattle.psm_tree.specs.StatementGrammar.{statement};
ghost use Rattle.psm_tree.specs.FileGrammar.{file, script};
ghost use Rattle.psm_tree.specs.declared.expr.Expr.{Expr as ExprTree};
ghost use Rattle.psm_tree.specs.declared.statement.Statement.{Statement as StatementTree};
ghost use Rattle.psm_tree.specs.declared.file.FileTree.{FileTree as TheFile};
ghost use Rattle.psm_tree.specs.declared.script.ScriptTree.{ScriptTree as TheScript};

/// Tokens spell at most one tree, and each of them is read at one level of nesting, whichever way the tree
/// is derived: of files and scripts, and of expressions and statements at each depth.
pub fn one_tree()
    ensures of_file { (w v : Words Placed) (x y : TheFile) → Spells productions 0 file w x → Spells productions 0 file v y → toks w ≡ toks v → (w ≡ v) × (x ≡ y) }
    ensures of_script { (w v : Words Placed) (x y : TheScript) → Spells productions 0 script w x → Spells productions 0 script v y → toks w ≡ toks v → (w ≡ v) × (x ≡ y) }
    ensures of_expr { (depth : ℕ) (w v : Words Placed) (x y : ExprTree) → Spells productions depth expr w x → Spells productions depth expr v y → toks w ≡ toks v → (w ≡ v) × (x ≡ y) }
    ensures of_statement { (depth : ℕ) (w v : Words Placed) (x y : StatementTree) → Spells productions depth statement w x → Spells productions depth statement v y → toks w ≡ toks v → (w ≡ v) × (x ≡ y) }
{}
