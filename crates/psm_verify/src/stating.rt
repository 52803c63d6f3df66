//! The lines of a routine, one after another.
ghost use Rattle.std.specs.Prelude.{◌≡◌, ◌<◌, ◌&&◌, [], ◌∷◌, length, suc, slice_get, option_map, IfOk};
ghost use Rattle.psm_code.specs.declared.rule.CodeRule.TheVariants.{Turn, Place};
ghost use Rattle.psm_code.specs.Parts as parts;
ghost use Rattle.psm_code.specs.Rules as rules;
ghost use Rattle.psm_code.specs.RoutineRules as routines;
ghost use Rattle.psm_verify.specs.Checked.{Finds, checked};
ghost use Rattle.psm_verify.specs.Stated.{bare, bare_before, bare_of, code_line_fault_at, first_right, line_fault_with};

use crate::effects::operands_of;
use crate::fault::Stop;
use crate::handling::context_there;
use crate::listing::passed;
use crate::verify_context::VerifyContext;
use psm_code::{CodeRule, Instruction, RawRoutine};
use psm_exprcode::Letter;
use psm_verify_line::{
    context_after, falls_through, is_in, is_target, jump_of, jumps_right, jumps_within, resumes_at,
    stands_right, wants_resume,
};
use std::alloc::{AllocError, Global};

/// A line, without the operands that it states.
#[derive(Clone, Copy)]
pub(crate) struct StatedLine<'a> {
    pub(crate) context: u32,
    pub(crate) resume: Option<u32>,
    pub(crate) instruction: &'a Instruction,
}

impl<'a> VerifyContext<'a> {
    /// The lines of the routine.
    #[tactic(auto, using(crate::proofs::Lining::lines_next, crate::proofs::LinesInOrder::going_on, crate::proofs::LinesInOrder::stopped))]
    pub(crate) fn lines(&self, alloc: Global, line: u64) -> Result<u64, Stop>
        ensures { Finds (checked line (routines.line_faults self.now.code.now self.now.routine.now 0 self.now.routine.now.lines)) result }
    {
        let mut line = line;
        for at in 0..self.routine.lines.len() {
            line = passed(line, self.line_fault(alloc, at)?)?;
        }
        Ok(line)
    }

    // The rule that the line at an index breaks, if any.
    fn line_fault(&self, alloc: Global, at: usize) -> Result<Option<CodeRule>, AllocError>
        requires { at < length self.now.routine.now.lines }
        ensures { IfOk result (λ fault. fault ≡ code_line_fault_at self.now.code.now self.now.routine.now at) }
    {
        let operands = operands_of(alloc, &self.routine.lines, at)?;
        match self.stated(at) {
            Some(line) => self.fault(alloc, at, &line, operands.as_slice()),
            None => Ok(None),
        }
    }

    fn stated(&self, at: usize) -> Option<StatedLine<'a>>
        ensures { option_map bare result ≡ option_map bare_of (slice_get self.now.routine.now.lines at) }
    {
        let lines = &self.routine.lines;
        match (lines.context(at), lines.resume(at), lines.instruction(at)) {
            (Some(context), Some(resume), Some(instruction)) => Some(StatedLine {
                context,
                resume,
                instruction,
            }),
            _ => None,
        }
    }

    fn fault(
        &self,
        alloc: Global,
        at: usize,
        line: &StatedLine<'_>,
        operands: &[Letter],
    ) -> Result<Option<CodeRule>, AllocError>
        requires { at < length self.now.routine.now.lines }
        ensures { IfOk result (λ fault. fault ≡ line_fault_with self.now.code.now self.now.routine.now at (bare line.now) operands.now) }
    {
        if !self.range_right(line) {
            return Ok(Some(CodeRule::Range));
        }
        if !self.targets_right(at, line) {
            return Ok(Some(CodeRule::Target));
        }
        if !is_bare(line.instruction, operands) {
            return Ok(Some(CodeRule::Stack));
        }
        if !self.stack_follows(alloc, at, operands, line.instruction)? {
            return Ok(Some(CodeRule::Stack));
        }
        if !self.context_right(at, line, operands) {
            return Ok(Some(CodeRule::Context));
        }
        if !self.resume_right(alloc, at, line)? {
            return Ok(Some(CodeRule::Resume));
        }
        Ok(self.last_fault(at, line))
    }

    // The rules about jumps back and about what may stand where.
    fn last_fault(&self, at: usize, line: &StatedLine<'_>) -> Option<CodeRule>
        ensures { result ≡ rules.first_of (rules.unless (rules.where_there (routines.jump_of line.now.instruction.now) (routines.uses_turn self.now.routine.now at)) Turn ∷ rules.unless (routines.may_stand self.now.code.now self.now.routine.now line.now.instruction.now) Place ∷ []) }
    {
        if !jumps_right(self.routine, at, jump_of(line.instruction)) {
            Some(CodeRule::Turn)
        } else if !self.may_stand(line.instruction) {
            Some(CodeRule::Place)
        } else {
            None
        }
    }

    fn range_right(&self, line: &StatedLine<'_>) -> bool
        ensures { result ≡ (routines.context_there self.now.routine.now line.now.context && routines.names_there self.now.code.now self.now.routine.now line.now.instruction.now) }
    {
        context_there(self.routine, line.context) && self.names_there(line.instruction)
    }

    // Where the run goes on there is a line.
    fn targets_right(&self, at: usize, line: &StatedLine<'_>) -> bool
        requires { at < length self.now.routine.now.lines }
        ensures { result ≡ routines.are_targets self.now.routine.now at (bare line.now) }
    {
        is_target(self.routine, line.resume)
            && is_target(self.routine, jump_of(line.instruction))
            && (!falls_through(line.instruction) || self.has_next(at))
    }

    fn has_next(&self, at: usize) -> bool
        requires { at < length self.now.routine.now.lines }
        ensures { result ≡ rules.is_there self.now.routine.now.lines (suc at) }
    {
        let _ = self.routine.lines.len();
        is_line(self.routine, at + 1)
    }

    fn context_right(&self, at: usize, line: &StatedLine<'_>, operands: &[Letter]) -> bool
        requires { at < length self.now.routine.now.lines }
        ensures { result ≡ (first_right at line.now.context operands.now && (routines.stands_well_formed self.now.routine.now (bare line.now) line.now.instruction.now && routines.contexts_follow self.now.routine.now at (bare line.now))) }
    {
        is_first_right(at, line.context, operands)
            && stands_right(self.routine, line.context, line.instruction)
            && self.contexts_follow(at, line)
    }

    fn contexts_follow(&self, at: usize, line: &StatedLine<'_>) -> bool
        requires { at < length self.now.routine.now.lines }
        ensures { result ≡ routines.contexts_follow self.now.routine.now at (bare line.now) }
    {
        (!falls_through(line.instruction) || self.goes_on_in(at, line))
            && jumps_within(self.routine, line.context, jump_of(line.instruction))
    }

    fn goes_on_in(&self, at: usize, line: &StatedLine<'_>) -> bool
        requires { at < length self.now.routine.now.lines }
        ensures { result ≡ routines.is_in (routines.context_after self.now.routine.now (bare line.now) line.now.instruction.now) (parts.line_at self.now.routine.now (suc at)) }
    {
        let _ = self.routine.lines.len();
        let context = context_after(self.routine, line.context, line.instruction);
        is_in(self.routine, context, at + 1)
    }

    fn resume_right(
        &self,
        alloc: Global,
        at: usize,
        line: &StatedLine<'_>,
    ) -> Result<bool, AllocError>
        ensures { IfOk result (λ b. b ≡ routines.resumes_well_formed self.now.routine.now at (bare line.now)) }
    {
        if wants_resume(line.instruction) && line.resume.is_none() {
            Ok(false)
        } else {
            resumes_at(alloc, self.routine, at, line.context, line.resume)
        }
    }
}

fn is_line(routine: &RawRoutine, at: usize) -> bool
    ensures { result ≡ rules.is_there routine.now.lines at }
{
    at < routine.lines.len()
}

// The first line is the routine's own and states no operand.
fn is_first_right(at: usize, context: u32, operands: &[Letter]) -> bool
    ensures { result ≡ first_right at context operands.now }
{
    at != 0 || (context == 0 && operands.is_empty())
}

// No operand stands before an instruction that stands alone.
fn is_bare(instruction: &Instruction, operands: &[Letter]) -> bool
    ensures { result ≡ bare_before instruction.now operands.now }
{
    !stands_alone(instruction) || operands.is_empty()
}

fn stands_alone(instruction: &Instruction) -> bool
    ensures { result ≡ routines.stands_alone instruction.now }
{
    match instruction {
        Instruction::Clear
        | Instruction::Warn
        | Instruction::Turn
        | Instruction::Enter(_)
        | Instruction::Exit(_)
        | Instruction::EndAction(_)
        | Instruction::End
        | Instruction::NoReturn
        | Instruction::Open(_)
        | Instruction::Close(_)
        | Instruction::Signal(_)
        | Instruction::Resignal
        | Instruction::ResignalCondition(_)
        | Instruction::NoCase => true,
        _ => false,
    }
}
