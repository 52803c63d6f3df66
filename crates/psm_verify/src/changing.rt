//! Where the instructions of a routine go on, and with which operands.
ghost use Rattle.std.specs.Prelude.{◌≡◌, ◌<◌, ◌&&◌, ◌||◌, Some, None, length, option_map, slice_get, IfOk};
ghost use Rattle.std.specs.Option.{option_copied};
ghost use Rattle.psm_exprcode.specs.declared.op.Letter.TheVariants.{N};
ghost use Rattle.psm_exprcode.specs.Kinds.{some_letter, some_value};
ghost use Rattle.psm_code.specs.declared.instruction.Instruction.TheVariants as instruction;
ghost use Rattle.psm_exprcode.specs.WellFormed.{left_of};
ghost use Rattle.psm_code.specs.Instructions as instructions;
ghost use Rattle.psm_code.specs.Parts.{routine_at};
ghost use Rattle.psm_code.specs.RoutineRules as routines;
ghost use Rattle.psm_verify.specs.Moves.{follows_split, given_rows, moves_at, optional_follow, plan_follows, taken_by_plan};
ghost use Rattle.psm_verify.specs.VerifyContext.{row_with};

use crate::effects::{follows, goes_on, left_by};
use crate::instructions::{none, plain};
use crate::verify_context::VerifyContext;
use psm_code::{Instruction, Plan};
use psm_exprcode::{Letter, Op};
use psm_list::List;
use std::alloc::{AllocError, Global};

impl<'a> VerifyContext<'a> {
    // ---- operands

    /// Whether the operands that an instruction takes are there, and those that it leaves are stated wherever it goes on.
    pub(crate) fn stack_follows(
        &self,
        alloc: Global,
        at: usize,
        operands: &[Letter],
        instruction: &Instruction,
    ) -> Result<bool, AllocError>
        requires { at < length self.now.routine.now.lines }
        ensures { IfOk result (λ b. b ≡ follows_split self.now.code.now self.now.routine.now at operands.now instruction.now) }
    {
        match instruction {
            Instruction::Data(plan) => self.plan_follows(alloc, at, operands, *plan),
            _ => self.effect_follows(alloc, at, operands, instruction),
        }
    }

    fn effect_follows(
        &self,
        alloc: Global,
        at: usize,
        operands: &[Letter],
        instruction: &Instruction,
    ) -> Result<bool, AllocError>
        requires { at < length self.now.routine.now.lines }
        ensures { IfOk result (λ b. b ≡ (routines.constant_fits instruction.now && (routines.lacks_result self.now.code.now self.now.routine.now operands.now instruction.now || some_value (λ k. some_letter (λ x. optional_follow self.now.routine.now at operands.now (moves_at self.now.code.now self.now.routine.now instruction.now k x)))))) }
    {
        if !constant_fits(instruction) {
            return Ok(false);
        }
        if self.lacks_result(operands, instruction) {
            return Ok(true);
        }
        if self.follows_for(alloc, at, operands, instruction, Letter::N)? {
            return Ok(true);
        }
        self.follows_for(alloc, at, operands, instruction, Letter::T)
    }

    // A routine without a type has no letter of a result, so none is asked. The operands of its parameters are.
    fn lacks_result(&self, operands: &[Letter], instruction: &Instruction) -> bool
        ensures { result ≡ routines.lacks_result self.now.code.now self.now.routine.now operands.now instruction.now }
    {
        match instruction {
            Instruction::ReturnValue => self.routine.returns.is_none(),
            Instruction::FunctionCall(number) => self.takes_untyped(operands, *number),
            _ => false,
        }
    }

    #[tactic(auto, using(crate::proofs::Each::known_at))]
    fn takes_untyped(&self, operands: &[Letter], number: u32) -> bool
        ensures { result ≡ routines.takes_untyped operands.now (routine_at self.now.code.now number) }
    {
        let Some(call) = self.calls.get(number as usize) else {
            return false;
        };
        let Some(routine) = self.code.routines.items().get(number as usize) else {
            return false;
        };
        routine.returns.is_none() && left_by(operands, call.all.items()).is_some()
    }

    // The same for a value of that letter where it may be of either kind.
    fn follows_for(
        &self,
        alloc: Global,
        at: usize,
        operands: &[Letter],
        instruction: &Instruction,
        kind: Letter,
    ) -> Result<bool, AllocError>
        requires { at < length self.now.routine.now.lines }
        ensures { IfOk result (λ b. b ≡ some_letter (λ x. optional_follow self.now.routine.now at operands.now (moves_at self.now.code.now self.now.routine.now instruction.now kind x))) }
    {
        if self.follows_with(alloc, at, operands, instruction, kind, Letter::N)? {
            return Ok(true);
        }
        if self.follows_with(alloc, at, operands, instruction, kind, Letter::T)? {
            return Ok(true);
        }
        self.follows_with(alloc, at, operands, instruction, kind, Letter::B)
    }

    fn follows_with(
        &self,
        alloc: Global,
        at: usize,
        operands: &[Letter],
        instruction: &Instruction,
        kind: Letter,
        other: Letter,
    ) -> Result<bool, AllocError>
        requires { at < length self.now.routine.now.lines }
        ensures { IfOk result (λ b. b ≡ optional_follow self.now.routine.now at operands.now (moves_at self.now.code.now self.now.routine.now instruction.now kind other)) }
    {
        match self.effect(instruction, kind, other) {
            Some(effect) => follows(alloc, self.routine, at, operands, &effect),
            None => Ok(false),
        }
    }

    // ---- plans

    #[tactic(auto, using(crate::proofs::Each::known_at))]
    fn plan_follows(
        &self,
        alloc: Global,
        at: usize,
        operands: &[Letter],
        plan: u32,
    ) -> Result<bool, AllocError>
        requires { at < length self.now.routine.now.lines }
        ensures { IfOk result (λ b. b ≡ plan_follows self.now.routine.now at operands.now (taken_by_plan self.now.code.now self.now.routine.now plan)) }
    {
        let plans = self.routine.plans.items();
        match (plans.get(plan as usize), self.rows.get(plan as usize)) {
            (Some(plan), Some(row)) => self.letters_follow(alloc, at, operands, plan, row),
            _ => Ok(false),
        }
    }

    fn letters_follow(
        &self,
        alloc: Global,
        at: usize,
        operands: &[Letter],
        plan: &Plan,
        row: &Option<List<Letter>>,
    ) -> Result<bool, AllocError>
        requires line { at < length self.now.routine.now.lines }
        requires row { row.now ≡ row_with self.now.columns.now plan.now }
        ensures { IfOk result (λ b. b ≡ plan_follows self.now.routine.now at operands.now (instructions.plan_letters self.now.code.now plan.now)) }
    {
        match plan {
            Plan::Insert { rows, .. } => self.insert_follows(alloc, at, operands, row, *rows),
            _ => follows(alloc, self.routine, at, operands, &plain(none(), none())),
        }
    }

    fn insert_follows(
        &self,
        alloc: Global,
        at: usize,
        operands: &[Letter],
        row: &Option<List<Letter>>,
        rows: u32,
    ) -> Result<bool, AllocError>
        requires { at < length self.now.routine.now.lines }
        ensures { IfOk result (λ b. b ≡ plan_follows self.now.routine.now at operands.now (option_map (given_rows rows) row.now)) }
    {
        match row {
            Some(row) => self.row_follows(alloc, at, operands, row.items(), rows),
            None => Ok(false),
        }
    }

    fn row_follows(
        &self,
        alloc: Global,
        at: usize,
        operands: &[Letter],
        row: &[Letter],
        rows: u32,
    ) -> Result<bool, AllocError>
        requires { at < length self.now.routine.now.lines }
        ensures { IfOk result (λ b. b ≡ plan_follows self.now.routine.now at operands.now (Some (given_rows rows row.now))) }
    {
        match left_rows(operands, row, rows) {
            Some(rest) => goes_on(alloc, self.routine, at, &plain(none(), none()), rest),
            None => Ok(false),
        }
    }
}

// What is left of the operands where n rows are taken.
#[tactic(auto, using(crate::proofs::Rows::rows_some, crate::proofs::Rows::rows_none))]
fn left_rows<'s>(stack: &'s [Letter], row: &[Letter], rows: u32) -> Option<&'s [Letter]>
    ensures { option_copied result ≡ left_of (given_rows rows row.now) stack.now }
{
    let mut rest = stack;
    let mut more = rows;
    while more > 0 {
        match left_by(rest, row) {
            Some(below) => rest = below,
            None => return None,
        }
        more -= 1;
    }
    Some(rest)
}

fn constant_fits(instruction: &Instruction) -> bool
    ensures { result ≡ routines.constant_fits instruction.now }
{
    match instruction {
        Instruction::Operation(op) => operation_fits(op),
        _ => true,
    }
}

fn operation_fits(op: &Op) -> bool
    ensures { result ≡ routines.constant_fits (instruction.Operation op.now) }
{
    match op {
        Op::Constant(letter, value) => letter.is_of(value),
        _ => true,
    }
}
