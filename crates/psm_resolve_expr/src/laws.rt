//! Laws of the shapes, and of the conditions that AND and OR join.
ghost use Rattle.std.specs.Prelude.{ℕ, IsTrue, List};
ghost use Rattle.psm_token.specs.declared.token.Placed.{Placed};
ghost use Rattle.psm_grammar.specs.Grammar.{Spells};
ghost use Rattle.psm_grammar.specs.Language.{Words};
ghost use Rattle.psm_value.specs.Stored.{is_stored};
ghost use Rattle.psm_value.specs.declared.datum.Datum.{Datum};
ghost use Rattle.psm_value.specs.declared.sqltype.SqlType.{SqlType};
ghost use Rattle.psm_rules.specs.declared.shape.Shape.TheVariants.{Value};
ghost use Rattle.psm_rules.specs.Shapes.{typed};
ghost use Rattle.psm_tree.specs.ExprGrammar.{expr};
ghost use Rattle.psm_tree.specs.Productions.{productions};
ghost use Rattle.psm_tree.specs.declared.expr.Expr.{Expr};
ghost use Rattle.psm_resolved.specs.RowValue.{row_value};
ghost use Rattle.psm_resolve_expr.specs.Exprs.{resolve_expr};
ghost use Rattle.psm_resolve_expr.specs.Scales.{ComesAtScale, HoldAsDeclared, IsAtScale, joins};
ghost use Rattle.psm_resolve_expr.specs.ResolverScope.{ResolverScope};

/// Over columns and variables that hold what they are declared for, an expression that evaluates to a number has the shape of a
/// value, and the number has exactly that shape's scale. What is stored in a type is what the type is declared for. AND and OR
/// have to stand between two conditions or more, as they do in each expression that tokens spell.
pub fn numbers_have_the_scale_of_their_shape()
    ensures expressions { (resolver_scope : ResolverScope) (row vars : List Datum) → HoldAsDeclared resolver_scope row vars → (e : Expr) → IsTrue (joins e) → ComesAtScale (resolve_expr e resolver_scope).shape (row_value row vars (resolve_expr e resolver_scope).expr) }
    ensures spelled { (resolver_scope : ResolverScope) (row vars : List Datum) → HoldAsDeclared resolver_scope row vars → (depth : ℕ) (tokens : Words Placed) (e : Expr) → Spells productions depth expr tokens e → ComesAtScale (resolve_expr e resolver_scope).shape (row_value row vars (resolve_expr e resolver_scope).expr) }
    ensures stored { (to : SqlType) (d : Datum) → IsTrue (is_stored to d) → IsAtScale (Value (typed to)) d }
{}

/// AND and OR stand between two conditions or more in each expression that tokens spell, wherever a value may be taken from
/// one of them (ISO/IEC 9075:1992, 8.12). A lone condition is spelled without them.
pub fn spelled_logical_operators_join_two()
    ensures { (depth : ℕ) (tokens : Words Placed) (e : Expr) → Spells productions depth expr tokens e → IsTrue (joins e) }
{}
