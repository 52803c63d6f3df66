//! Lines of code.

use crate::fault::Fault;
use crate::operands::Operands;
use crate::operation::operation;
use psm_exprcode::{Letter, RawExpr};
use std::alloc::{AllocError, Global};

/// The lines that are all operands left.
pub fn lines(alloc: Global, operands: &mut Operands<'_>) -> Result<RawExpr, Fault> {
    let mut lines = RawExpr::new(alloc);
    let mut stack = Vec::new(alloc);
    for _ in 0..operands.len() {
        if operands.is_empty() {
            break;
        }
        read_line(alloc, operands, &mut stack, &mut lines)?;
    }
    Ok(lines)
}

// One line more. Its letters are read into the vector, which all lines share.
fn read_line(
    alloc: Global,
    operands: &mut Operands<'_>,
    stack: &mut Vec<Letter>,
    lines: &mut RawExpr,
) -> Result<(), Fault> {
    read_stack(operands.before_colon()?, stack)?;
    let op = operation(alloc, operands)?;
    lines.push(stack.as_slice(), op)?;
    Ok(())
}

// The letters, in place of those before. A number stands before as many of one letter.
fn read_stack(letters: &str, stack: &mut Vec<Letter>) -> Result<(), Fault> {
    stack.clear();
    let mut count: u16 = 0;
    for byte in letters.bytes() {
        match byte {
            b'0'..=b'9' => {
                let digit = u16::from(byte - b'0');
                count = count.saturating_mul(10).saturating_add(digit);
                continue;
            }
            b'N' => put(stack, Letter::N, count)?,
            b'T' => put(stack, Letter::T, count)?,
            b'B' => put(stack, Letter::B, count)?,
            b'-' => {}
            _ => return Err(Fault::Row),
        }
        count = 0;
    }
    Ok(())
}

// One letter, or n of it.
fn put(stack: &mut Vec<Letter>, letter: Letter, count: u16) -> Result<(), AllocError> {
    for _ in 0..count.max(1) {
        stack.push(letter)?;
    }
    Ok(())
}
