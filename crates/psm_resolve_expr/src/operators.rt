//! Operators and functions of the language, as they stand in resolved expressions.
ghost use Rattle.std.specs.Prelude.{◌≡◌};
ghost use Rattle.psm_resolve_expr.specs.Exprs.{comparison_of, function_of, logical_operator_of, operator_of, set_of, side_of};

use psm_exprcode::SetFunction;
use psm_resolved::{Comparison, LogicalOperator, Operator, TextFunction};
use psm_text::Side;
use psm_tree::{
    Comparison as WrittenComparison, LogicalOperator as WrittenLogicalOperator,
    Operator as WrittenOperator, SetFunction as WrittenSet, TextFunction as WrittenFunction,
    TrimSide,
};

pub(crate) fn logical_operator_of(logical_operator: WrittenLogicalOperator) -> LogicalOperator
    ensures { result ≡ logical_operator_of logical_operator }
{
    match logical_operator {
        WrittenLogicalOperator::And => LogicalOperator::And,
        WrittenLogicalOperator::Or => LogicalOperator::Or,
    }
}

pub(crate) fn comparison_of(operator: WrittenComparison) -> Comparison
    ensures { result ≡ comparison_of operator }
{
    match operator {
        WrittenComparison::Equal => Comparison::Equal,
        WrittenComparison::NotEqual => Comparison::NotEqual,
        WrittenComparison::Less => Comparison::Less,
        WrittenComparison::LessEqual => Comparison::LessEqual,
        WrittenComparison::Greater => Comparison::Greater,
        WrittenComparison::GreaterEqual => Comparison::GreaterEqual,
    }
}

pub(crate) fn operator_of(operator: WrittenOperator) -> Operator
    ensures { result ≡ operator_of operator }
{
    match operator {
        WrittenOperator::Add => Operator::Add,
        WrittenOperator::Subtract => Operator::Subtract,
        WrittenOperator::Concatenate => Operator::Concatenate,
        WrittenOperator::Multiply => Operator::Multiply,
        WrittenOperator::Divide => Operator::Divide,
    }
}

pub(crate) fn function_of(function: WrittenFunction) -> TextFunction
    ensures { result ≡ function_of function }
{
    match function {
        WrittenFunction::CharLength => TextFunction::CharLength,
        WrittenFunction::Upper => TextFunction::Upper,
        WrittenFunction::Lower => TextFunction::Lower,
    }
}

pub(crate) fn side_of(side: TrimSide) -> Side
    ensures { result ≡ side_of side }
{
    match side {
        TrimSide::Leading => Side::Leading,
        TrimSide::Trailing => Side::Trailing,
        TrimSide::Both => Side::Both,
    }
}

pub(crate) fn set_of(function: WrittenSet) -> SetFunction
    ensures { result ≡ set_of function }
{
    match function {
        WrittenSet::Count => SetFunction::Count,
        WrittenSet::Sum => SetFunction::Sum,
        WrittenSet::Avg => SetFunction::Avg,
        WrittenSet::Min => SetFunction::Min,
        WrittenSet::Max => SetFunction::Max,
    }
}
