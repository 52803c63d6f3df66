//! What the instructions of a routine name, and in which routines they may stand.
ghost use Rattle.std.specs.Prelude.{◌≡◌, not};
ghost use Rattle.psm_code.specs.declared.instruction.Instruction.TheVariants as instruction;
ghost use Rattle.psm_code.specs.Parts as parts;
ghost use Rattle.psm_code.specs.Rules as rules;
ghost use Rattle.psm_code.specs.RoutineRules as routines;

use crate::numbers::is_there;
use crate::types::is_type;
use crate::verify_context::VerifyContext;
use psm_code::{Instruction, RawCode};
use psm_exprcode::Op;

impl<'a> VerifyContext<'a> {
    /// Whether what an instruction names is there.
    pub(crate) fn names_there(&self, instruction: &Instruction) -> bool
        ensures { result ≡ routines.names_there self.now.code.now self.now.routine.now instruction.now }
    {
        let routine = self.routine;
        match instruction {
            Instruction::Operation(op) => self.operation_there(op),
            Instruction::Store(slot) | Instruction::FetchStore(slot) => self.slot_there(*slot),
            Instruction::Enter(context) | Instruction::Exit(context) => {
                routine.handlers.context(*context).is_some()
            }
            Instruction::EndAction(handler) => { is_there(routine.handlers.handlers(), *handler) }
            Instruction::Call(number) | Instruction::FunctionCall(number) => {
                is_there(self.code.routines.items(), *number)
            }
            Instruction::Exists(query) | Instruction::Scalar(query) | Instruction::Row(query) =>
                is_there(routine.queries.items(), *query),
            Instruction::Data(plan) => is_there(routine.plans.items(), *plan),
            Instruction::Open(cursor)
            | Instruction::Close(cursor)
            | Instruction::Fetch(cursor)
            | Instruction::Next { cursor, .. } => is_there(routine.cursors.items(), *cursor),
            Instruction::Signal(number)
            | Instruction::SignalMessage(number)
            | Instruction::ResignalCondition(number)
            | Instruction::ResignalMessage(number) => {
                is_there(routine.handlers.declared(), *number)
            }
            _ => true,
        }
    }

    fn operation_there(&self, op: &Op) -> bool
        ensures { result ≡ routines.names_there self.now.code.now self.now.routine.now (instruction.Operation op.now) }
    {
        match op {
            Op::Variable(slot) => self.slot_there(*slot),
            Op::Rescale(scale) => *scale <= 18,
            Op::Cast(to) => is_type(*to),
            _ => true,
        }
    }

    #[tactic(auto, using(crate::proofs::Slots::slot_is_there))]
    fn slot_there(&self, slot: u32) -> bool
        ensures { result ≡ routines.slot_there self.now.routine.now slot }
    {
        is_there(self.variables, slot)
    }

    // ---- where instructions may stand

    /// What may stand in a procedure or in a function.
    pub(crate) fn may_stand(&self, instruction: &Instruction) -> bool
        ensures { result ≡ routines.may_stand self.now.code.now self.now.routine.now instruction.now }
    {
        let is_function = self.routine.is_function;
        match instruction {
            Instruction::ReturnValue | Instruction::NoReturn => is_function,
            Instruction::End | Instruction::Data(_) => !is_function,
            Instruction::Call(number) => !is_function && is_procedure(self.code, *number),
            Instruction::FunctionCall(number) => is_function_at(self.code, *number),
            Instruction::Operation(op) => !matches!(op, Op::Column(_)),
            _ => true,
        }
    }
}

fn is_procedure(code: &RawCode, number: u32) -> bool
    ensures { result ≡ rules.where_there (parts.routine_at code.now number) (λ q. not q.is_function) }
{
    match code.routines.items().get(number as usize) {
        Some(routine) => !routine.is_function,
        None => true,
    }
}

fn is_function_at(code: &RawCode, number: u32) -> bool
    ensures { result ≡ rules.where_there (parts.routine_at code.now number) (λ q. q.is_function) }
{
    match code.routines.items().get(number as usize) {
        Some(routine) => routine.is_function,
        None => true,
    }
}
