//! Names, data types and constants.
ghost use Rattle.std.specs.Prelude.{◌≡◌, ◌++◌, IfOk};
ghost use Rattle.psm_print.specs.ExprTokens.{name_tokens, target_tokens, names_tokens, enclosed_names_tokens, targets_tokens, precision_tokens, length_tokens, type_tokens, constant_tokens};

use crate::operators::plus_minus;
use psm_num::Dec;
use psm_spell::Writer;
use psm_token::{Sign, Word};
use psm_tree::{
    Constant, ConstantForm, DataType, Identifier, Names, Precision, Target, Targets, TypeForm,
};
use std::alloc::AllocError;

/// A name, delimited.
pub(crate) fn name(out: &mut Writer, name: &Identifier) -> Result<(), AllocError>
    ensures { IfOk result (λ _. out.new ≡ out.old ++ name_tokens name.now) }
{
    out.name(&name.name)
}

/// `name`, or `name.name`.
pub(crate) fn target(out: &mut Writer, target: &Target) -> Result<(), AllocError>
    ensures { IfOk result (λ _. out.new ≡ out.old ++ target_tokens target.now) }
{
    name(out, &target.first)?;
    match &target.second {
        None => Ok(()),
        Some(second) => {
            out.sign(Sign::Period)?;
            name(out, second)
        }
    }
}

/// Names with a comma between two of them.
pub(crate) fn names(out: &mut Writer, names: &Names) -> Result<(), AllocError>
    ensures { IfOk result (λ _. out.new ≡ out.old ++ names_tokens names.now) }
{
    name(out, &names.first)?;
    for next in names.rest.items() {
        out.sign(Sign::Comma)?;
        name(out, next)?;
    }
    Ok(())
}

/// Names in parentheses.
pub(crate) fn enclosed_names(out: &mut Writer, columns: &Names) -> Result<(), AllocError>
    ensures { IfOk result (λ _. out.new ≡ out.old ++ enclosed_names_tokens columns.now) }
{
    out.sign(Sign::LeftParen)?;
    names(out, columns)?;
    out.sign(Sign::RightParen)
}

/// Targets with a comma between two of them.
pub(crate) fn targets(out: &mut Writer, targets: &Targets) -> Result<(), AllocError>
    ensures { IfOk result (λ _. out.new ≡ out.old ++ targets_tokens targets.now) }
{
    target(out, &targets.first)?;
    for next in targets.rest.items() {
        out.sign(Sign::Comma)?;
        target(out, next)?;
    }
    Ok(())
}

/// The numbers after NUMERIC.
fn precision(out: &mut Writer, precision: &Precision) -> Result<(), AllocError>
    ensures { IfOk result (λ _. out.new ≡ out.old ++ precision_tokens precision.now) }
{
    out.sign(Sign::LeftParen)?;
    out.number(precision.precision)?;
    match &precision.scale {
        None => {}
        Some(scale) => {
            out.sign(Sign::Comma)?;
            out.number(*scale)?;
        }
    }
    out.sign(Sign::RightParen)
}

/// The length after CHAR or VARCHAR.
fn length(out: &mut Writer, length: Dec) -> Result<(), AllocError>
    ensures { IfOk result (λ _. out.new ≡ out.old ++ length_tokens length) }
{
    out.sign(Sign::LeftParen)?;
    out.number(length)?;
    out.sign(Sign::RightParen)
}

/// A data type.
pub(crate) fn data_type(out: &mut Writer, kind: &DataType) -> Result<(), AllocError>
    ensures { IfOk result (λ _. out.new ≡ out.old ++ type_tokens kind.now) }
{
    match &kind.form {
        TypeForm::SmallInt => out.word(Word::SmallInt),
        TypeForm::Integer => out.word(Word::Integer),
        TypeForm::Numeric(numbers) => {
            out.word(Word::Numeric)?;
            match numbers {
                None => Ok(()),
                Some(numbers) => precision(out, numbers),
            }
        }
        TypeForm::Char(characters) => {
            out.word(Word::Char)?;
            match characters {
                None => Ok(()),
                Some(characters) => length(out, *characters),
            }
        }
        TypeForm::VarChar(characters) => {
            out.word(Word::VarChar)?;
            length(out, *characters)
        }
    }
}

/// A constant.
pub(crate) fn constant(out: &mut Writer, constant: &Constant) -> Result<(), AllocError>
    ensures { IfOk result (λ _. out.new ≡ out.old ++ constant_tokens constant.now) }
{
    match &constant.form {
        ConstantForm::Number { sign: None, number } => out.number(*number),
        ConstantForm::Number {
            sign: Some(sign),
            number,
        } => {
            plus_minus(out, *sign)?;
            out.number(*number)
        }
        ConstantForm::Text(text) => out.text(text),
        ConstantForm::Null => out.word(Word::Null),
    }
}
