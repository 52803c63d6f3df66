//! Scripts.
ghost use Rattle.std.specs.Prelude.{◌≡◌};
ghost use Rattle.psm_tree.specs.Places.{argument_place, command_place};

use crate::name::{Identifier, Names};
use crate::statement::OrderedQuery;
use crate::types::Constant;
use psm_list::{Boxed, List, OneOrMore};
use psm_token::Place;

/// A script.
#[derive(Drop)]
pub struct ScriptTree {
    pub commands: List<Command>,
}

/// An argument of a script's CALL: a constant, or `?` for an OUT parameter.
#[derive(Debug, Drop)]
pub enum Argument {
    Constant(Constant),
    Placeholder { place: Place },
}

impl Argument {
    /// The place of its first token.
    pub fn place(&self) -> Place
        ensures { result ≡ argument_place self.now }
    {
        match self {
            Argument::Constant(constant) => constant.place,
            Argument::Placeholder { place } => *place,
        }
    }
}

/// A row of a script's INSERT.
#[derive(Debug, Drop)]
pub struct ConstantRow {
    pub place: Place,
    pub values: OneOrMore<Constant>,
}

/// A command of a script.
#[derive(Drop)]
pub enum Command {
    Call {
        place: Place,
        procedure: Identifier,
        arguments: List<Argument>,
    },
    Insert {
        place: Place,
        table: Identifier,
        columns: Option<Boxed<Names>>,
        rows: OneOrMore<ConstantRow>,
    },
    Select(OrderedQuery),
    Commit {
        place: Place,
    },
    Rollback {
        place: Place,
    },
}

impl Command {
    /// The place of its first token.
    pub fn place(&self) -> Place
        ensures { result ≡ command_place self.now }
    {
        match self {
            Command::Select(query) => query.place(),
            Command::Call { place, .. }
            | Command::Insert { place, .. }
            | Command::Commit { place }
            | Command::Rollback { place } => *place,
        }
    }
}
