//! What the tables and the routines of a file declare.
ghost use Rattle.std.specs.Prelude.{◌≡◌, None, Some, IfOk};
ghost use Rattle.psm_rules.specs.FileFaults.{columns_of};
ghost use Rattle.psm_resolve.specs.SymbolTables.{next_procedure, with_known_routine, with_known_routines, with_known_table, with_known_tables};

use psm_check_expr::{SymbolTable, type_of};
use psm_list::List;
use psm_scope::ProcedureScope;
use psm_symbols::{columns_of, kinds_of, next_number, parameters_of};
use psm_tree::{DataType, FileTree, Routine, TableTree};
use std::alloc::{AllocError, Global};

/// Declares what a file declares; each routine is known in the whole module.
pub(crate) fn declare_symbols<'a>(
    alloc: Global,
    file: &'a FileTree,
    symbols: &mut SymbolTable<'a>,
) -> Result<(), AllocError>
    ensures { IfOk result (λ _. symbols.new ≡ with_known_routines (with_known_tables symbols.old file.now.tables) 0 file.now.«module».routines) }
{
    for table in file.tables.items() {
        declare_table(alloc, table, symbols)?;
    }
    declare_routines(alloc, file.module.routines.items(), symbols)
}

// ---- tables

fn declare_table<'a>(
    alloc: Global,
    table: &'a TableTree,
    symbols: &mut SymbolTable<'a>,
) -> Result<(), AllocError>
    ensures { IfOk result (λ _. symbols.new ≡ with_known_table symbols.old table.now) }
{
    let columns = columns_of(alloc, table)?;
    symbols.tables.add(&table.name.name, columns)?;
    Ok(())
}

// ---- routines

// Procedures are numbered from 0.
fn declare_routines<'a>(
    alloc: Global,
    routines: &'a [Routine],
    symbols: &mut SymbolTable<'a>,
) -> Result<(), AllocError>
    ensures { IfOk result (λ _. symbols.new ≡ with_known_routines symbols.old 0 routines.now) }
{
    let mut procedures = 0;
    for routine in routines {
        procedures = declare_routine(alloc, routine, procedures, symbols)?;
    }
    Ok(())
}

// Declares a routine where n procedures stand before it, and gives how many there are with it.
fn declare_routine<'a>(
    alloc: Global,
    routine: &'a Routine,
    procedures: u32,
    symbols: &mut SymbolTable<'a>,
) -> Result<u32, AllocError>
    ensures known { IfOk result (λ _. symbols.new ≡ with_known_routine symbols.old procedures routine.now routine.now.returns) }
    ensures number { IfOk result (λ n. n ≡ next_procedure procedures routine.now.returns) }
{
    match &routine.returns {
        None => {
            declare_procedure(alloc, routine, procedures, symbols)?;
            next_number(procedures)
        }
        Some(t) => {
            declare_function(alloc, routine, t, symbols)?;
            Ok(procedures)
        }
    }
}

fn declare_procedure<'a>(
    alloc: Global,
    routine: &'a Routine,
    number: u32,
    symbols: &mut SymbolTable<'a>,
) -> Result<(), AllocError>
    ensures { IfOk result (λ _. symbols.new ≡ with_known_routine symbols.old number routine.now None) }
{
    let known = ProcedureScope {
        number,
        parameters: parameters_of(alloc, routine.parameters.items())?,
    };
    symbols.procedures.add(&routine.name.name, known)?;
    Ok(())
}

fn declare_function<'a>(
    alloc: Global,
    routine: &'a Routine,
    returned: &DataType,
    symbols: &mut SymbolTable<'a>,
) -> Result<(), AllocError>
    ensures { IfOk result (λ _. symbols.new ≡ with_known_routine symbols.old 0 routine.now (Some returned.now)) }
{
    let kinds = kinds_of(alloc, routine.parameters.items())?;
    symbols
        .functions
        .push(&routine.name.name, List::of(kinds), type_of(returned))?;
    Ok(())
}

// ---- parameters
