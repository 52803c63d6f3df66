//! The operand stack of a run: one stack, on which the operands of each activation stand above those of the activation that called
//! it, so that a call takes no memory for operands.
#![tactic(auto)]

mod stack;

pub use stack::OperandStack;
