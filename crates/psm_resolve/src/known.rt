//! What the names of statements mean: slots, numbers and places. The number 0 stands for what nothing declares.
ghost use Rattle.std.specs.Prelude.{◌≡◌, IfOk};
ghost use Rattle.psm_rules.specs.StatementFaults.{several};
ghost use Rattle.psm_resolve.specs.Statements.{cursor_of, level_of, slot_of, slots_of};

use psm_check_expr::spelling;
use psm_list::{List, OneOrMore};
use psm_resolve_expr::Scopes;
use psm_symbols::as_number;
use psm_tree::{Identifier, Target};
use std::alloc::{AllocError, Global};

// ---- variables

/// The slot of the variable that a target means.
pub(crate) fn slot_of(scopes: &Scopes, target: &Target) -> u32
    ensures { result ≡ slot_of scopes.now target.now }
{
    match scopes.meant(&target.first.name, spelling(&target.second)) {
        None => 0,
        Some(known) => known.slot,
    }
}

/// The slots of the variables that targets mean.
pub(crate) fn slots_of(
    alloc: Global,
    scopes: &Scopes,
    targets: &OneOrMore<Target>,
) -> Result<List<u32>, AllocError>
    ensures { IfOk result (λ slots. slots ≡ slots_of scopes.now (several targets.now)) }
{
    let mut slots = Vec::new(alloc);
    slots.push(slot_of(scopes, &targets.first))?;
    for target in targets.rest.items() {
        slots.push(slot_of(scopes, target))?;
    }
    Ok(List::of(slots))
}

// ---- labels and cursors

/// The level of the statement with a label.
pub(crate) fn level_of(scopes: &Scopes, label: &Identifier) -> Result<u32, AllocError>
    ensures { IfOk result (λ level. level ≡ level_of scopes.now label.now) }
{
    match scopes.level(&label.name) {
        None => Ok(0),
        Some(level) => as_number(level),
    }
}

/// The number of a cursor.
pub(crate) fn cursor_of(scopes: &Scopes, cursor: &Identifier) -> u32
    ensures { result ≡ cursor_of scopes.now cursor.now }
{
    match scopes.cursor(&cursor.name) {
        None => 0,
        Some(number) => *number,
    }
}

// ---- columns
