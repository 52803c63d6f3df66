//! SQLSTATEs.

use crate::fault::Fault;
use crate::operands::Operands;
use crate::shown;
use psm_sqlstate::{Kind, SqlState};
use std::alloc::Global;

const LISTED: [(&str, SqlState); 22] = [
    ("SUCCESS", SqlState::SUCCESS),
    ("NULL_ELIMINATED", SqlState::NULL_ELIMINATED),
    ("TRUNCATION_WARNING", SqlState::TRUNCATION_WARNING),
    ("NO_DATA", SqlState::NO_DATA),
    ("HANDLER_NOT_ACTIVE", SqlState::HANDLER_NOT_ACTIVE),
    ("NO_STACKED_DIAGNOSTICS", SqlState::NO_STACKED_DIAGNOSTICS),
    ("CASE_NOT_FOUND", SqlState::CASE_NOT_FOUND),
    ("CARDINALITY_VIOLATION", SqlState::CARDINALITY_VIOLATION),
    ("RIGHT_TRUNCATION", SqlState::RIGHT_TRUNCATION),
    ("OUT_OF_RANGE", SqlState::OUT_OF_RANGE),
    ("SUBSTRING_ERROR", SqlState::SUBSTRING_ERROR),
    ("DIVISION_BY_ZERO", SqlState::DIVISION_BY_ZERO),
    ("INVALID_CAST", SqlState::INVALID_CAST),
    (
        "INVALID_ESCAPE_CHARACTER",
        SqlState::INVALID_ESCAPE_CHARACTER,
    ),
    ("INVALID_ESCAPE_SEQUENCE", SqlState::INVALID_ESCAPE_SEQUENCE),
    ("INTEGRITY_VIOLATION", SqlState::INTEGRITY_VIOLATION),
    ("INVALID_CURSOR_STATE", SqlState::INVALID_CURSOR_STATE),
    ("NO_RETURN", SqlState::NO_RETURN),
    (
        "INVALID_CONDITION_NUMBER",
        SqlState::INVALID_CONDITION_NUMBER,
    ),
    ("UNHANDLED_EXCEPTION", SqlState::UNHANDLED_EXCEPTION),
    ("NESTING_TOO_DEEP", SqlState::NESTING_TOO_DEEP),
    ("TABLE_FULL", SqlState::TABLE_FULL),
];

/// The constant that is the state, its kind, and what it means.
pub fn reported(alloc: Global, operands: &mut Operands<'_>) -> Result<String, Fault> {
    let text = operands.quoted(alloc)?;
    match SqlState::read(text.as_str()) {
        Some(state) => Ok(format!(in alloc;
            "{} {} {} '{}'",
            state.text(),
            constant(state),
            kind(state),
            state.message()
        )?),
        None => shown::word(alloc, "no state"),
    }
}

fn constant(state: SqlState) -> &'static str {
    for (name, listed) in LISTED {
        if listed == state {
            return name;
        }
    }
    "unlisted"
}

fn kind(state: SqlState) -> &'static str {
    match state.kind() {
        Kind::Success => "success",
        Kind::Warning => "warning",
        Kind::NotFound => "not found",
        Kind::Exception => "exception",
    }
}
