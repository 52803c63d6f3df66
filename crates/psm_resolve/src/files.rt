//! Module files.
ghost use Rattle.std.specs.Prelude.{◌≡◌, IfOk};
ghost use Rattle.psm_rules.specs.FileFaults.{no_symbols};
ghost use Rattle.psm_resolve.specs.Files.{resolved_file};
ghost use Rattle.psm_resolve.specs.SymbolTables.{known_symbols};

use crate::references::foreign_keys;
use crate::routines::resolve_routines;
use crate::symbol_tables::declare_symbols;
use crate::tables::resolve_tables;
use psm_check_expr::SymbolTable;
use psm_declare::ResolveContext;
use psm_resolved::ResolvedFile;
use psm_tree::FileTree;
use std::alloc::{AllocError, Global};

/// The resolved module file that stands for one: each name is the slot, the number or the place of what it means where it
/// stands (ISO/IEC 9075-4:1996). It has one answer for each file, also for one that isn't accepted, and fails only without memory.
pub fn resolve_file(alloc: Global, file: &FileTree) -> Result<ResolvedFile, AllocError>
    ensures { IfOk result (λ resolved. resolved ≡ resolved_file file.now) }
{
    let mut symbols = SymbolTable::new(alloc);
    declared_file(alloc, &mut symbols, file)
}

// The file, which is declared in a symbol table that has nothing in it.
fn declared_file<'a>(
    alloc: Global,
    symbols: &mut SymbolTable<'a>,
    file: &'a FileTree,
) -> Result<ResolvedFile, AllocError>
    requires nothing_known { symbols.old ≡ no_symbols }
    ensures { IfOk result (λ resolved. resolved ≡ resolved_file file.now) }
{
    declare_symbols(alloc, file, symbols)?;
    let resolver = ResolveContext {
        alloc,
        symbols: &*symbols,
    };
    file_with(resolver, file)
}

// The file, where what it declares is known.
fn file_with<'w, 'a>(
    resolver: ResolveContext<'w, 'a>,
    file: &'a FileTree,
) -> Result<ResolvedFile, AllocError>
    requires known { resolver.symbols.now ≡ known_symbols file.now }
    ensures { IfOk result (λ resolved. resolved ≡ resolved_file file.now) }
{
    let tables = resolve_tables(resolver.alloc, file.tables.items())?;
    let keys = foreign_keys(resolver, tables.items(), file.tables.items())?;
    let routines = resolve_routines(resolver, file.module.routines.items())?;
    Ok(ResolvedFile {
        tables,
        keys,
        routines,
    })
}
