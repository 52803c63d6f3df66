//! The declarations of a block while it is read.
ghost use Rattle.std.specs.Prelude.{◌≡◌, IfOk};

use psm_list::Boxed;
use psm_tree::{CursorDeclaration, Declaration, Handler};
use std::alloc::AllocError;

/// A declaration.
#[derive(Drop)]
pub(crate) enum Item {
    Declaration(Boxed<Declaration>),
    Cursor(Boxed<CursorDeclaration>),
    Handler(Boxed<Handler>),
}

/// Which declarations may still come in a block: all, all but variables and conditions, or handlers alone.
#[derive(Clone, Copy)]
pub(crate) enum Stage {
    Declarations,
    Cursors,
    Handlers,
}

/// The declarations of a block that were read.
#[derive(Drop)]
pub(crate) struct Heads {
    pub declarations: Vec<Boxed<Declaration>>,
    pub cursors: Vec<Boxed<CursorDeclaration>>,
    pub handlers: Vec<Boxed<Handler>>,
}

impl Item {
    ghost use Rattle.psm_parse_stmt.specs.Declaring.{stage_after};

    /// Which declarations may come after this one.
    pub(crate) fn stage_after(&self) -> Stage
        ensures { result ≡ stage_after self.now }
    {
        match self {
            Item::Declaration(_) => Stage::Declarations,
            Item::Cursor(_) => Stage::Cursors,
            Item::Handler(_) => Stage::Handlers,
        }
    }
}

impl Heads {
    ghost use Rattle.psm_parse_stmt.specs.Declaring.{Adds};

    /// Puts a declaration after the others of its kind. Out of memory is the one refusal.
    pub(crate) fn add(&mut self, item: Item) -> Result<(), AllocError>
        ensures { IfOk result (λ _. Adds self.old item self.new) }
    {
        match item {
            Item::Declaration(declaration) => self.declarations.push(declaration)?,
            Item::Cursor(cursor) => self.cursors.push(cursor)?,
            Item::Handler(handler) => self.handlers.push(handler)?,
        }
        Ok(())
    }
}
