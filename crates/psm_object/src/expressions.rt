//! The lines of expressions.
ghost use Rattle.std.specs.Prelude.{◌≡◌, ◌++◌, ◌∷◌, [], map, OnOk};
ghost use Rattle.psm_object.specs.Expressions.{expression_lines, operation_details, operation_line, operation_mnemonic, side_word, test_lines};
ghost use Rattle.psm_object.specs.Words.{ended, further, text};

use crate::words::{end_line, put_count, put_index, put_kind, put_value, put_word};
use psm_exprcode::{ExprCode, Letter, Op, RawExpr};
use psm_text::Side;
use psm_words::put_stack;
use std::alloc::AllocError;

/// Appends the lines of an expression.
pub(crate) fn put_expression(out: &mut Vec<u8>, code: &ExprCode) -> Result<(), AllocError>
    ensures { OnOk result (out.new.items ≡ out.old.items ++ text (expression_lines code.now)) }
{
    let lines = code.lines();
    out.extend_from_slice(b"EXPR")?;
    put_count(out, lines.len())?;
    end_line(out)?;
    put_operations(out, lines)
}

/// Appends the lines of a test, if there is one.
pub(crate) fn put_test(out: &mut Vec<u8>, test: &Option<ExprCode>) -> Result<(), AllocError>
    ensures { OnOk result (out.new.items ≡ out.old.items ++ text (test_lines test.now)) }
{
    match test {
        None => Ok(()),
        Some(code) => put_expression(out, code),
    }
}

fn put_operations(out: &mut Vec<u8>, lines: &RawExpr) -> Result<(), AllocError>
    ensures { OnOk result (out.new.items ≡ out.old.items ++ text (map operation_line lines.now)) }
{
    let mut letters = Vec::new(*out.allocator());
    let mut at = 0;
    while let Some(op) = lines.op(at) {
        lines.stack(at, &mut letters)?;
        put_operation_line(out, letters.as_slice(), op)?;
        at += 1;
    }
    Ok(())
}

fn put_operation_line(out: &mut Vec<u8>, stack: &[Letter], op: &Op) -> Result<(), AllocError>
    ensures { OnOk result (out.new.items ≡ out.old.items ++ ended (operation_line (record { stack = stack.now; op = op.now }))) }
{
    put_stack(out, stack)?;
    put_operation(out, op)?;
    end_line(out)
}

fn put_operation(out: &mut Vec<u8>, op: &Op) -> Result<(), AllocError>
    ensures { OnOk result (out.new.items ≡ out.old.items ++ further (operation_mnemonic op.now ∷ operation_details op.now)) }
{
    put_word(out, op.mnemonic())?;
    put_operation_details(out, op)
}

/// Appends what stands after the mnemonic of an operation, each word after a blank.
pub(crate) fn put_operation_details(out: &mut Vec<u8>, op: &Op) -> Result<(), AllocError>
    ensures { OnOk result (out.new.items ≡ out.old.items ++ further (operation_details op.now)) }
{
    match op {
        Op::Constant(letter, value) => {
            out.push(b' ')?;
            put_stack(out, &[*letter])?;
            put_value(out, value)
        }
        Op::Variable(n) | Op::Column(n) | Op::In(n) => put_index(out, *n),
        Op::Jump(n) | Op::JumpUnlessTrue(n) | Op::JumpUnlessNull(n) => put_index(out, *n),
        Op::Rescale(decimals) => put_index(out, *decimals as u32),
        Op::Trim(side) => put_word(out, side_name(*side)),
        Op::Cast(to) => put_kind(out, *to),
        _ => Ok(()),
    }
}

fn side_name(side: Side) -> &'static str
    ensures { result.now ≡ side_word side }
{
    match side {
        Side::Leading => "L",
        Side::Trailing => "T",
        Side::Both => "B",
    }
}
