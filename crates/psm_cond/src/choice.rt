//! The choice of a handler.
ghost use Rattle.std.specs.Prelude.{◌≡◌, ◌<◌, IsTrue};
ghost use Rattle.psm_cond.specs.Choice.{chosen_in};
ghost use Rattle.psm_cond.specs.Handlers.{Asks, choice, handler_rank, number_of, outside, own_handlers};
ghost use Rattle.psm_cond.specs.Index.{class_value, first_for_any, own_value};
ghost use Rattle.psm_cond.specs.WellFormed.{is_well_formed_table};

use crate::condition::Condition;
use crate::entry::Entry;
use crate::handlers::{ConditionValue, ContextKind, HandlerTable};
use psm_sqlstate::Kind;

/// What a context answers to a condition.
#[derive(Clone, Copy)]
enum Asked {
    /// The number of its own handler.
    Chosen(u32),
    /// The context that is asked next.
    Outward(u32),
}

/// The number of the handler that is chosen for a condition that is raised in a context (ISO/IEC
/// 9075-4:1996). In the innermost scope that has a match it is the most specific one: for a name without
/// SQLSTATE, then for an SQLSTATE, then for a class; of several that are as specific it is the first. `None`
/// comes exactly where no scope of the context has a match. It takes no memory.
pub fn choose(table: &HandlerTable, context: u32, condition: &Condition) -> Option<u32>
    requires { IsTrue (is_well_formed_table table.now) }
    ensures { result ≡ choice table.now context condition.now.first }
{
    let mut at = context;
    while at > 0 {
        match ask(table, at, condition.first()) {
            Asked::Chosen(handler) => return Some(handler),
            Asked::Outward(next) => at = next,
        }
    }
    None
}

fn ask(table: &HandlerTable, context: u32, entry: &Entry) -> Asked
    requires well_formed_handlers { IsTrue (is_well_formed_table table.now) }
    requires inside { 0 < context }
    ensures { Asks table.now context entry.now result }
{
    match table.context(context) {
        None => Asked::Outward(0),
        Some(found) => match &found.kind {
            ContextKind::Block(_) => match chosen_in(table, context, entry) {
                Some(handler) => Asked::Chosen(handler),
                None => Asked::Outward(found.parent),
            },
            ContextKind::Action(handler) => Asked::Outward(outside(table, *handler)),
        },
    }
}

/// The context in which the block of a handler stands.
fn outside(table: &HandlerTable, handler: u32) -> u32
    ensures { result ≡ outside table.now handler }
{
    match table.handlers().get(handler as usize) {
        None => 0,
        Some(handler) => match table.context(handler.context) {
            None => 0,
            Some(block) => block.parent,
        },
    }
}

/// The number of the handler that is chosen among those that the block of a context declares.
#[tactic(auto, using(crate::proofs::Choices::chosen_own, crate::proofs::Choices::chosen_state, crate::proofs::Choices::chosen_class))]
fn chosen_in(table: &HandlerTable, context: u32, entry: &Entry) -> Option<u32>
    requires { IsTrue (is_well_formed_table table.now) }
    ensures { result ≡ number_of (chosen_in (handler_rank entry.now) (own_handlers table.now context)) }
{
    if let Some(handler) = first_for_any(table, context, own_value(entry.own)) {
        return Some(handler);
    }
    if let Some(handler) = table.first_for(context, ConditionValue::State(entry.state)) {
        return Some(handler);
    }
    first_for_any(table, context, class_value(entry.state.kind()))
}

// The number of the first handler that the block of a context declares for a value, where there is one.
fn first_for_any(table: &HandlerTable, context: u32, value: Option<ConditionValue>) -> Option<u32>
    ensures { result ≡ first_for_any table.now.handlers context value }
{
    match value {
        None => None,
        Some(value) => table.first_for(context, value),
    }
}

// The value for a declared condition without SQLSTATE.
fn own_value(own: Option<u32>) -> Option<ConditionValue>
    ensures { result ≡ own_value own }
{
    match own {
        None => None,
        Some(number) => Some(ConditionValue::Named(number)),
    }
}

// The value for a class of SQLSTATEs. Success is in none.
fn class_value(kind: Kind) -> Option<ConditionValue>
    ensures { result ≡ class_value kind }
{
    match kind {
        Kind::Success => None,
        Kind::Warning => Some(ConditionValue::SqlWarning),
        Kind::NotFound => Some(ConditionValue::NotFound),
        Kind::Exception => Some(ConditionValue::SqlException),
    }
}
