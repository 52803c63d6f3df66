//! Plans: what INSERT, UPDATE and DELETE do (ISO/IEC 9075:1992, 13.6 to 13.10).
ghost use Rattle.std.specs.Prelude.{◌≡◌, ◌++◌, ◌&&◌, [], ◌∷◌, slice_get, IfOk};
ghost use Rattle.std.specs.List.{flat_map};
ghost use Rattle.psm_code.specs.declared.rule.CodeRule.TheVariants.{Range, Definition};
ghost use Rattle.psm_code.specs.Instructions as instructions;
ghost use Rattle.psm_code.specs.Rules as rules;
ghost use Rattle.psm_code.specs.PlanRules as plans;
ghost use Rattle.psm_code.specs.TableRules as tables;
ghost use Rattle.psm_code.specs.declared.code.Plan.TheVariants.{InsertQuery};
ghost use Rattle.psm_verify.specs.Checked.{Finds, checked, item_at};
ghost use Rattle.psm_verify.specs.Earlier.{at_index, is_new_set};
ghost use Rattle.psm_verify.specs.Placed.{due_of};
ghost use Rattle.psm_verify.specs.VerifyContext.{fits_column};

use crate::expressions::Due;
use crate::fault::Stop;
use crate::listing::passed;
use crate::numbers::{are_there, is_there};
use crate::tables::is_column_list;
use crate::verify_context::VerifyContext;
use psm_code::{CodeRule, Plan, RawCode, RawRoutine};
use psm_exprcode::{ExprCode, Letter, SetItem};
use psm_keys::NumberSet;
use std::alloc::{AllocError, Global};

impl<'a> VerifyContext<'a> {
    /// The plans of the routine.
    pub(crate) fn plans(&self, alloc: Global, line: u64) -> Result<u64, Stop>
        ensures { Finds (checked line (flat_map (plans.plan_faults self.now.code.now self.now.routine.now) self.now.routine.now.plans)) result }
    {
        let mut line = line;
        for plan in self.routine.plans.items() {
            line = self.plan(alloc, line, plan)?;
        }
        Ok(line)
    }

    fn plan(&self, alloc: Global, line: u64, plan: &Plan) -> Result<u64, Stop>
        ensures { Finds (checked line (plans.plan_faults self.now.code.now self.now.routine.now plan.now)) result }
    {
        let fault = self.plan_fault(alloc, plan)?;
        let line = passed(line, fault)?;
        self.plan_parts(alloc, line, plan)
    }

    fn plan_parts(&self, alloc: Global, line: u64, plan: &Plan) -> Result<u64, Stop>
        ensures { Finds (checked line (plans.plan_parts self.now.code.now self.now.routine.now plan.now)) result }
    {
        match plan {
            Plan::Update { table, sets, test } => {
                self.update(alloc, line, *table as usize, sets.items(), test)
            }
            Plan::Delete { table, test } => self.test(alloc, line, *table as usize, test),
            Plan::UpdateAt { cursor, sets } => {
                self.sets(alloc, line, self.table_of_cursor(*cursor), sets.items())
            }
            _ => Ok(line),
        }
    }

    fn update(
        &self,
        alloc: Global,
        line: u64,
        table: usize,
        sets: &[SetItem],
        test: &Option<ExprCode>,
    ) -> Result<u64, Stop>
        ensures { Finds (checked line (plans.sets_in self.now.code.now self.now.routine.now table sets.now ++ plans.test_in self.now.code.now self.now.routine.now table test.now)) result }
    {
        let line = self.sets(alloc, line, table, sets)?;
        self.test(alloc, line, table, test)
    }

    fn sets(&self, alloc: Global, line: u64, table: usize, sets: &[SetItem]) -> Result<u64, Stop>
        ensures { Finds (checked line (plans.sets_in self.now.code.now self.now.routine.now table sets.now)) result }
    {
        let mut columns = NumberSet::new(alloc);
        let mut line = line;
        for at in 0..sets.len() {
            let is_new = columns.add(sets[at].column)?;
            line = self.set_at(alloc, line, table, sets, at, is_new)?;
        }
        Ok(line)
    }

    fn set_at(
        &self,
        alloc: Global,
        line: u64,
        table: usize,
        sets: &[SetItem],
        at: usize,
        is_new: bool,
    ) -> Result<u64, Stop>
        requires { is_new ≡ at_index is_new_set sets.now at }
        ensures { Finds (checked line (item_at (plans.set_faults self.now.code.now self.now.routine.now table) sets.now at)) result }
    {
        match sets.get(at) {
            Some(set) => self.set_lines(alloc, line, table, is_new, &sets[..at], set),
            None => Ok(line),
        }
    }

    // The line of a column that is set, and the expression.
    fn set_lines(
        &self,
        alloc: Global,
        line: u64,
        table: usize,
        is_new: bool,
        before: &[SetItem],
        set: &SetItem,
    ) -> Result<u64, Stop>
        requires { is_new ≡ is_new_set before.now set.now }
        ensures { Finds (checked line (plans.set_faults self.now.code.now self.now.routine.now table before.now set.now)) result }
    {
        let line = passed(line, set_fault(self.code, table, is_new, before, set))?;
        let due = column_due(self.columns_at(table), set.column);
        self.expression(alloc, line, table, due, &set.source)
    }

    // The table of a cursor's query; none where it isn't there.
    fn table_of_cursor(&self, cursor: u32) -> usize
        ensures { result ≡ plans.or_none self.now.code.now (plans.cursor_table self.now.routine.now cursor) }
    {
        match cursor_table(self.routine, cursor) {
            Some(table) => table as usize,
            None => self.code.tables.items().len(),
        }
    }

    fn plan_fault(&self, alloc: Global, plan: &Plan) -> Result<Option<CodeRule>, AllocError>
        ensures { IfOk result (λ fault. fault ≡ plans.plan_fault self.now.code.now self.now.routine.now plan.now) }
    {
        match plan {
            Plan::Insert { table, columns, .. } => {
                insert_fault(alloc, self.code, *table, columns.items())
            }
            Plan::InsertQuery {
                table,
                columns,
                query,
            } => self.insert_query_fault(alloc, *table, columns.items(), *query),
            Plan::Update { table, sets, .. } => {
                Ok(update_fault(self.code, *table, sets.items()))
            }
            Plan::Delete { table, .. } => Ok(delete_fault(self.code, *table)),
            Plan::UpdateAt { cursor, sets } => {
                Ok(update_at_fault(self.routine, *cursor, sets.items()))
            }
            Plan::DeleteAt { cursor } => Ok(delete_at_fault(self.routine, *cursor)),
        }
    }

    fn insert_query_fault(
        &self,
        alloc: Global,
        table: u32,
        columns: &[u32],
        query: u32,
    ) -> Result<Option<CodeRule>, AllocError>
        ensures { IfOk result (λ fault. fault ≡ plans.plan_fault self.now.code.now self.now.routine.now (InsertQuery table columns.now query)) }
    {
        if !is_there(self.code.tables.items(), table)
            || !columns_there(self.code, table, columns)
            || !is_there(self.routine.queries.items(), query)
        {
            return Ok(Some(CodeRule::Range));
        }
        if is_column_list(alloc, columns)? && self.fits_columns(table, columns, query) {
            Ok(None)
        } else {
            Ok(Some(CodeRule::Definition))
        }
    }

    // Whether the items of a query are as many as the columns, and of their letters.
    #[tactic(auto, using(crate::proofs::Each::known_at))]
    fn fits_columns(&self, table: u32, columns: &[u32], query: u32) -> bool
        ensures { result ≡ rules.where_there (slice_get self.now.routine.now.queries query) (plans.fits_columns self.now.code.now self.now.routine.now table columns.now) }
    {
        match self.items.get(query as usize) {
            Some(letters) => {
                are_items(self.columns_at(table as usize), columns, letters.items())
            }
            None => true,
        }
    }
}

// Whether the items are of the letters of columns, one for one.
#[tactic(auto, using(crate::proofs::KnownLetters::items_first, crate::proofs::KnownLetters::items_end))]
fn are_items(letters: &[Letter], columns: &[u32], items: &[Letter]) -> bool
    ensures { result ≡ plans.are_items (instructions.letters_at letters.now columns.now) items.now }
{
    let mut left = columns;
    let mut right = items;
    while let Some((column, others)) = left.split_first() {
        match right.split_first() {
            Some((item, more)) if is_item(letters, *column, *item) => right = more,
            _ => return false,
        }
        left = others;
    }
    right.is_empty()
}

fn is_item(letters: &[Letter], column: u32, item: Letter) -> bool
    ensures { result ≡ fits_column (slice_get letters.now column) item }
{
    match letters.get(column as usize) {
        Some(letter) => *letter == item,
        None => false,
    }
}

fn insert_fault(
    alloc: Global,
    code: &RawCode,
    table: u32,
    columns: &[u32],
) -> Result<Option<CodeRule>, AllocError>
    ensures { IfOk result (λ fault. fault ≡ rules.first_of (rules.unless (rules.is_there code.now.tables table && plans.columns_there code.now table columns.now) Range ∷ rules.unless (tables.is_column_list columns.now) Definition ∷ [])) }
{
    if !is_there(code.tables.items(), table) || !columns_there(code, table, columns) {
        return Ok(Some(CodeRule::Range));
    }
    if is_column_list(alloc, columns)? {
        Ok(None)
    } else {
        Ok(Some(CodeRule::Definition))
    }
}

fn columns_there(code: &RawCode, table: u32, columns: &[u32]) -> bool
    ensures { result ≡ plans.columns_there code.now table columns.now }
{
    match code.tables.items().get(table as usize) {
        Some(table) => are_there(table.definition.columns.items(), columns),
        None => true,
    }
}

fn update_fault(code: &RawCode, table: u32, sets: &[SetItem]) -> Option<CodeRule>
    ensures { result ≡ rules.first_of (rules.unless (rules.is_there code.now.tables table) Range ∷ rules.unless (rules.is_some sets.now) Definition ∷ []) }
{
    if !is_there(code.tables.items(), table) {
        Some(CodeRule::Range)
    } else if sets.is_empty() {
        Some(CodeRule::Definition)
    } else {
        None
    }
}

fn delete_fault(code: &RawCode, table: u32) -> Option<CodeRule>
    ensures { result ≡ rules.unless (rules.is_there code.now.tables table) Range }
{
    if is_there(code.tables.items(), table) {
        None
    } else {
        Some(CodeRule::Range)
    }
}

fn update_at_fault(routine: &RawRoutine, cursor: u32, sets: &[SetItem]) -> Option<CodeRule>
    ensures { result ≡ rules.first_of (rules.unless (rules.is_there routine.now.cursors cursor) Range ∷ rules.unless (rules.is_some sets.now && plans.is_positioned routine.now cursor) Definition ∷ []) }
{
    if !is_there(routine.cursors.items(), cursor) {
        Some(CodeRule::Range)
    } else if !sets.is_empty() && is_positioned(routine, cursor) {
        None
    } else {
        Some(CodeRule::Definition)
    }
}

fn delete_at_fault(routine: &RawRoutine, cursor: u32) -> Option<CodeRule>
    ensures { result ≡ rules.first_of (rules.unless (rules.is_there routine.now.cursors cursor) Range ∷ rules.unless (plans.is_positioned routine.now cursor) Definition ∷ []) }
{
    if !is_there(routine.cursors.items(), cursor) {
        Some(CodeRule::Range)
    } else if is_positioned(routine, cursor) {
        None
    } else {
        Some(CodeRule::Definition)
    }
}

// A positioned plan goes by a plain cursor that is updatable.
fn is_positioned(routine: &RawRoutine, cursor: u32) -> bool
    ensures { result ≡ plans.is_positioned routine.now cursor }
{
    match routine.cursors.items().get(cursor as usize) {
        Some(cursor) => !cursor.insensitive && cursor.updatable,
        None => true,
    }
}

fn cursor_table(routine: &RawRoutine, cursor: u32) -> Option<u32>
    ensures { result ≡ plans.cursor_table routine.now cursor }
{
    let cursor = routine.cursors.items().get(cursor as usize)?;
    let query = routine.queries.items().get(cursor.query as usize)?;
    Some(query.table)
}

#[tactic(auto, using(crate::proofs::Earlier::new_set))]
fn set_fault(
    code: &RawCode,
    table: usize,
    is_new: bool,
    before: &[SetItem],
    set: &SetItem,
) -> Option<CodeRule>
    requires { is_new ≡ is_new_set before.now set.now }
    ensures { result ≡ plans.set_line code.now table before.now set.now }
{
    if !column_there(code, table, set.column) {
        Some(CodeRule::Range)
    } else if is_new {
        None
    } else {
        Some(CodeRule::Definition)
    }
}

fn column_there(code: &RawCode, table: usize, column: u32) -> bool
    ensures { result ≡ rules.where_there (slice_get code.now.tables table) (λ t. rules.is_there t.definition.columns column) }
{
    match code.tables.items().get(table) {
        Some(table) => is_there(table.definition.columns.items(), column),
        None => true,
    }
}

// A column takes values of its letter; where it isn't there, any value.
fn column_due(letters: &[Letter], column: u32) -> Due
    ensures { plans.is_column_letter (slice_get letters.now column) ≡ due_of result }
{
    match letters.get(column as usize) {
        Some(letter) => Due::Only(*letter),
        None => Due::Value,
    }
}
