//! The lines of an expression, one by one. They are looked at only where it is known that one of them, or their end, breaks a rule.
ghost use Rattle.std.specs.Prelude.{◌≡◌, ◌<◌, ◌++◌, ◌&&◌, None, length, nat_le, nat_lt, reverse, slice_get, option_map, IfOk};
ghost use Rattle.psm_exprcode.specs.declared.op.Letter.TheVariants.{N};
ghost use Rattle.psm_exprcode.specs.Kinds.{some_letter};
ghost use Rattle.psm_exprcode.specs.Operations.{effect};
ghost use Rattle.psm_exprcode.specs.Table.{effect_of, jump_of, letters_of};
ghost use Rattle.psm_exprcode.specs.WellFormed.{is_of_kind as is_of_known, left_of};
ghost use Rattle.psm_code.specs.Rules.{there, where_there};
ghost use Rattle.psm_code.specs.TableRules as rules;
ghost use Rattle.psm_verify.specs.Checked.{Finds, checked};
ghost use Rattle.psm_verify.specs.Placed.{end_at, end_over, fault_at, follows_for as follow_with, stack_fault, test_of};

use crate::fault::Stop;
use crate::listing::passed;
use crate::types::is_type;
use psm_code::CodeRule;
use psm_exprcode::{Entry, Letter, Letters, Op, RawExpr};
use psm_verify_line::{are_same, are_stated, is_known, left};
use std::alloc::{AllocError, Global};

/// What is asked of each line that goes on at the end.
#[derive(Clone, Copy)]
pub(crate) enum EndTest {
    /// That there is none.
    Absent,
    /// That it breaks no rule by itself.
    Faultless,
    /// That it brings one operand there, of the letter.
    Brings(Letter),
}

/// The operands that the line at an index states, the last one first.
pub(crate) fn stated_at(
    alloc: Global,
    lines: &RawExpr,
    at: usize,
) -> Result<Option<Vec<Letter>>, AllocError>
    ensures { IfOk result (λ letters. option_map (λ v. v.items) letters ≡ option_map (λ l. reverse l.stack) (slice_get lines.now at)) }
{
    if at < lines.len() {
        let mut letters = Vec::new(alloc);
        lines.stack(at, &mut letters)?;
        letters.reverse();
        Ok(Some(letters))
    } else {
        Ok(None)
    }
}

/// The lines, and the letters of the columns and the variables.
#[derive(Clone, Copy)]
pub(crate) struct Placed<'a> {
    pub(crate) lines: &'a RawExpr,
    pub(crate) columns: &'a [Letter],
    pub(crate) variables: &'a [Letter],
}

impl<'a> Placed<'a> {
    // Whether the letters are those that the line at an index states, or at the end the one that is asked for.
    fn lands(
        &self,
        alloc: Global,
        end: Option<Letter>,
        index: usize,
        puts: Letters,
        rest: &[Letter],
    ) -> Result<bool, AllocError>
        ensures { IfOk result (λ b. b ≡ rules.are_stated_at end (slice_get self.now.lines.now index) (letters_of puts ++ rest.now)) }
    {
        match stated_at(alloc, self.lines, index)? {
            Some(stated) => Ok(are_stated(puts, rest, stated.as_slice())),
            None => Ok(is_asked(end, puts, rest)),
        }
    }

    fn falls_through(
        &self,
        alloc: Global,
        end: Option<Letter>,
        at: usize,
        puts: Option<Letters>,
        rest: &[Letter],
    ) -> Result<bool, AllocError>
        requires { at < length self.now.lines.now }
        ensures { IfOk result (λ b. b ≡ rules.falls_on end self.now.lines.now at (option_map letters_of puts) rest.now) }
    {
        let _ = self.lines.len();
        match puts {
            Some(puts) => self.lands(alloc, end, at + 1, puts, rest),
            None => Ok(true),
        }
    }

    fn branches(
        &self,
        alloc: Global,
        end: Option<Letter>,
        jump: Option<(u32, Letters)>,
        rest: &[Letter],
    ) -> Result<bool, AllocError>
        ensures { IfOk result (λ b. b ≡ rules.jumps_on end self.now.lines.now (option_map jump_of jump) rest.now) }
    {
        match jump {
            Some((index, puts)) => self.lands(alloc, end, index as usize, puts, rest),
            None => Ok(true),
        }
    }

    // Whether an operation at an index finds what it takes, and brings what is stated wherever it goes on.
    fn leads(
        &self,
        alloc: Global,
        end: Option<Letter>,
        at: usize,
        entry: Entry,
        stack: &[Letter],
    ) -> Result<bool, AllocError>
        requires { at < length self.now.lines.now }
        ensures { IfOk result (λ b. b ≡ rules.are_stated_after end self.now.lines.now at (effect_of entry) (left_of (letters_of entry.takes) stack.now)) }
    {
        match left(stack, entry.takes) {
            Some(rest) => self.goes_on(alloc, end, at, entry, rest),
            None => Ok(false),
        }
    }

    fn goes_on(
        &self,
        alloc: Global,
        end: Option<Letter>,
        at: usize,
        entry: Entry,
        rest: &[Letter],
    ) -> Result<bool, AllocError>
        requires { at < length self.now.lines.now }
        ensures { IfOk result (λ b. b ≡ (rules.falls_on end self.now.lines.now at (option_map letters_of entry.fall_through) rest.now && rules.jumps_on end self.now.lines.now (option_map jump_of entry.branching) rest.now)) }
    {
        if self.falls_through(alloc, end, at, entry.fall_through, rest)? {
            self.branches(alloc, end, entry.branching, rest)
        } else {
            Ok(false)
        }
    }

    // The same for some letter in place of an operand that may be of any.
    fn leads_with(
        &self,
        alloc: Global,
        end: Option<Letter>,
        at: usize,
        op: &Op,
        kind: Letter,
        stack: &[Letter],
    ) -> Result<bool, AllocError>
        requires { at < length self.now.lines.now }
        ensures { IfOk result (λ b. b ≡ some_letter (λ x. rules.are_stated_after end self.now.lines.now at (effect op.now kind x) (left_of (effect op.now kind x).takes stack.now))) }
    {
        if self.leads(alloc, end, at, op.entry(kind, Letter::N), stack)? {
            return Ok(true);
        }
        if self.leads(alloc, end, at, op.entry(kind, Letter::T), stack)? {
            return Ok(true);
        }
        self.leads(alloc, end, at, op.entry(kind, Letter::B), stack)
    }

    // The same for a value of that kind where it may be of either.
    fn follows_for(
        &self,
        alloc: Global,
        end: Option<Letter>,
        at: usize,
        op: &Op,
        kind: Letter,
        stack: &[Letter],
    ) -> Result<bool, AllocError>
        requires { at < length self.now.lines.now }
        ensures { IfOk result (λ b. b ≡ follow_with self.now.columns.now self.now.variables.now end self.now.lines.now at op.now stack.now kind) }
    {
        if self.is_of_kind(op, kind) {
            self.leads_with(alloc, end, at, op, kind, stack)
        } else {
            Ok(false)
        }
    }

    // Whether the variable or the column that the operation names is there, and of the kind.
    fn is_of_kind(&self, op: &Op, kind: Letter) -> bool
        ensures { result ≡ is_of_known self.now.columns.now self.now.variables.now op.now kind }
    {
        match op {
            Op::Variable(index) => is_known(kind, self.variables, *index as usize),
            Op::Column(index) => is_known(kind, self.columns, *index as usize),
            _ => true,
        }
    }

    // Whether the operands of an operation at an index follow.
    fn follow(
        &self,
        alloc: Global,
        end: Option<Letter>,
        at: usize,
        op: &Op,
        stack: &[Letter],
    ) -> Result<bool, AllocError>
        requires { at < length self.now.lines.now }
        ensures { IfOk result (λ b. b ≡ rules.operands_follow self.now.columns.now self.now.variables.now end self.now.lines.now at op.now stack.now) }
    {
        if !is_of_letter(op) {
            return Ok(false);
        }
        if self.follows_for(alloc, end, at, op, Letter::N, stack)? {
            return Ok(true);
        }
        self.follows_for(alloc, end, at, op, Letter::T, stack)
    }

    // The rule that the operation breaks at an index over these operands, whatever it brings at the end.
    fn op_fault(
        &self,
        alloc: Global,
        at: usize,
        op: &Op,
        stack: &[Letter],
    ) -> Result<Option<CodeRule>, AllocError>
        requires { at < length self.now.lines.now }
        ensures { IfOk result (λ fault. fault ≡ rules.op_fault self.now.columns.now self.now.variables.now self.now.lines.now at op.now stack.now) }
    {
        if !self.names_there(op) || !is_in_bounds(op) {
            return Ok(Some(CodeRule::Range));
        }
        if !is_within(target_of(op), self.lines.len()) {
            return Ok(Some(CodeRule::Target));
        }
        self.stack_fault(alloc, at, op, stack)
    }

    // The same of its operands and of a jump that isn't ahead.
    fn stack_fault(
        &self,
        alloc: Global,
        at: usize,
        op: &Op,
        stack: &[Letter],
    ) -> Result<Option<CodeRule>, AllocError>
        requires { at < length self.now.lines.now }
        ensures { IfOk result (λ fault. fault ≡ stack_fault self.now.columns.now self.now.variables.now self.now.lines.now at op.now stack.now) }
    {
        if !is_bare_first(at, stack) {
            return Ok(Some(CodeRule::Stack));
        }
        if !self.follow(alloc, None, at, op, stack)? {
            return Ok(Some(CodeRule::Stack));
        }
        if is_ahead(at, target_of(op)) {
            Ok(None)
        } else {
            Ok(Some(CodeRule::Turn))
        }
    }

    fn names_there(&self, op: &Op) -> bool
        ensures { result ≡ rules.names_there self.now.columns.now self.now.variables.now op.now }
    {
        match op {
            Op::Variable(index) => (*index as usize) < self.variables.len(),
            Op::Column(index) => (*index as usize) < self.columns.len(),
            _ => true,
        }
    }

    // The rule that the line at an index breaks by itself, if any.
    fn fault(&self, alloc: Global, at: usize) -> Result<Option<CodeRule>, AllocError>
        requires { at < length self.now.lines.now }
        ensures { IfOk result (λ fault. fault ≡ fault_at self.now.columns.now self.now.variables.now self.now.lines.now at) }
    {
        match (self.lines.op(at), stated_at(alloc, self.lines, at)?) {
            (Some(op), Some(stack)) => self.op_fault(alloc, at, op, stack.as_slice()),
            _ => Ok(None),
        }
    }

    /// The lines one by one.
    #[tactic(auto, using(crate::proofs::Placing::fault_next, crate::proofs::LinesInOrder::going_on, crate::proofs::LinesInOrder::stopped))]
    pub(crate) fn each(&self, alloc: Global, line: u64) -> Result<u64, Stop>
        ensures { Finds (checked line (rules.expr_line_faults self.now.columns.now self.now.variables.now self.now.lines.now 0 self.now.lines.now)) result }
    {
        let mut line = line;
        for at in 0..self.lines.len() {
            line = passed(line, self.fault(alloc, at)?)?;
        }
        Ok(line)
    }

    // Whether the test holds of an operation at an index over these operands.
    fn passes(
        &self,
        alloc: Global,
        test: EndTest,
        at: usize,
        op: &Op,
        stack: &[Letter],
    ) -> Result<bool, AllocError>
        requires { at < length self.now.lines.now }
        ensures { IfOk result (λ b. b ≡ test_of self.now.columns.now self.now.variables.now self.now.lines.now test at op.now stack.now) }
    {
        match test {
            EndTest::Absent => Ok(false),
            EndTest::Faultless => match self.op_fault(alloc, at, op, stack)? {
                None => Ok(true),
                Some(_) => Ok(false),
            },
            EndTest::Brings(letter) => self.follow(alloc, Some(letter), at, op, stack),
        }
    }

    // The same where the operation goes on at the end.
    fn end_passes(
        &self,
        alloc: Global,
        test: EndTest,
        at: usize,
        op: &Op,
        stack: &[Letter],
    ) -> Result<bool, AllocError>
        requires { at < length self.now.lines.now }
        ensures { IfOk result (λ b. b ≡ end_over self.now.columns.now self.now.variables.now self.now.lines.now test at op.now stack.now) }
    {
        if reaches_end(self.lines.len(), at, op) {
            self.passes(alloc, test, at, op, stack)
        } else {
            Ok(true)
        }
    }

    // The same of the line at an index.
    fn passes_at(&self, alloc: Global, test: EndTest, at: usize) -> Result<bool, AllocError>
        requires { at < length self.now.lines.now }
        ensures { IfOk result (λ b. b ≡ end_at self.now.columns.now self.now.variables.now self.now.lines.now test at) }
    {
        match (self.lines.op(at), stated_at(alloc, self.lines, at)?) {
            (Some(op), Some(stack)) => self.end_passes(alloc, test, at, op, stack.as_slice()),
            _ => Ok(true),
        }
    }

    /// Whether the test holds of each line that goes on at the end.
    #[tactic(auto, using(crate::proofs::Placing::end_next))]
    pub(crate) fn at_ends(&self, alloc: Global, test: EndTest) -> Result<bool, AllocError>
        ensures { IfOk result (λ b. b ≡ rules.at_ends (test_of self.now.columns.now self.now.variables.now self.now.lines.now test) (length self.now.lines.now) 0 self.now.lines.now) }
    {
        for at in 0..self.lines.len() {
            if !self.passes_at(alloc, test, at)? {
                return Ok(false);
            }
        }
        Ok(true)
    }
}

// Whether the letters are the one that is asked for at the end, if one is.
fn is_asked(end: Option<Letter>, puts: Letters, rest: &[Letter]) -> bool
    ensures { result ≡ rules.are_stated_at end None (letters_of puts ++ rest.now) }
{
    match end {
        Some(letter) => are_stated(puts, rest, &[letter]),
        None => true,
    }
}

// Whether a constant is of its letter.
fn is_of_letter(op: &Op) -> bool
    ensures { result ≡ rules.is_of_letter op.now }
{
    match op {
        Op::Constant(letter, value) => letter.is_of(value),
        _ => true,
    }
}

// Whether a scale and a type are within bounds.
fn is_in_bounds(op: &Op) -> bool
    ensures { result ≡ rules.is_in_bounds op.now }
{
    match op {
        Op::Rescale(scale) => *scale <= 18,
        Op::Cast(to) => is_type(*to),
        _ => true,
    }
}

// The line at which the operation may go on instead of the one that follows.
fn target_of(op: &Op) -> Option<u32>
    ensures { result ≡ rules.target_of op.now }
{
    match op {
        Op::Jump(index) | Op::JumpUnlessTrue(index) | Op::JumpUnlessNull(index) => Some(*index),
        _ => None,
    }
}

fn is_within(target: Option<u32>, count: usize) -> bool
    ensures { result ≡ where_there target (λ p. nat_le p count) }
{
    match target {
        Some(index) => index as usize <= count,
        None => true,
    }
}

fn is_ahead(at: usize, target: Option<u32>) -> bool
    ensures { result ≡ where_there target (nat_lt at) }
{
    match target {
        Some(index) => at < index as usize,
        None => true,
    }
}

// Whether a line is the first one and states an operand.
fn is_bare_first(at: usize, stack: &[Letter]) -> bool
    ensures { result ≡ rules.is_bare_first at stack.now }
{
    at != 0 || are_same(&[], stack)
}

// Whether an operation at an index of n lines goes on at their end.
fn reaches_end(count: usize, at: usize, op: &Op) -> bool
    requires { at < count }
    ensures { result ≡ rules.reaches_end count at op.now }
{
    falls_through(op) && at + 1 == count || is_at(count, target_of(op))
}

fn falls_through(op: &Op) -> bool
    ensures { result ≡ there (effect op.now N N).fall_through }
{
    !matches!(op, Op::Jump(_))
}

fn is_at(count: usize, target: Option<u32>) -> bool
    ensures { result ≡ rules.is_at count target }
{
    match target {
        Some(index) => index as usize == count,
        None => false,
    }
}
