//! SQLSTATEs that a file names.
ghost use Rattle.std.specs.Prelude.{◌≡◌, true, string_bytes, IfOk};
ghost use Rattle.std.specs.List.{list_all};
ghost use Rattle.psm_sqlstate.specs.State.{is_state_character};
ghost use Rattle.psm_rules.specs.StatementFaults.{good_state, is_state, is_success};

use psm_sqlstate::SqlState;
use psm_text::Text;
use std::alloc::{AllocError, Global};

/// The SQLSTATE of a text that is one, and not one of success (ISO/IEC 9075:1992, 22.1). Fails only without memory.
pub fn good_state(alloc: Global, text: &Text) -> Result<Option<SqlState>, AllocError>
    ensures { IfOk result (λ s. s ≡ good_state text.now) }
{
    if is_state(text.chars()) && !is_success(text.chars()) {
        let spelled = spelled(alloc, text.chars())?;
        Ok(SqlState::read(spelled.as_str()))
    } else {
        Ok(None)
    }
}

fn is_state(text: &[char]) -> bool
    ensures { result ≡ is_state text.now }
{
    text.len() == 5 && are_state_characters(text)
}

fn are_state_characters(text: &[char]) -> bool
    ensures { result ≡ list_all is_state_character text.now }
{
    text.iter().all(|c| is_state_character(*c))
}

fn is_state_character(c: char) -> bool
    ensures { result ≡ is_state_character c }
{
    c.is_ascii_digit() || c.is_ascii_uppercase()
}

fn is_success(text: &[char]) -> bool
    ensures { result ≡ is_success text.now }
{
    match text {
        ['0', '0', ..] => true,
        _ => false,
    }
}

// The characters of an SQLSTATE as a string.
fn spelled(alloc: Global, text: &[char]) -> Result<String, AllocError>
    requires { list_all is_state_character text.now ≡ true }
    ensures { IfOk result (λ s. string_bytes s ≡ text.now) }
{
    let mut spelled = String::new(alloc);
    for c in text {
        spelled.push(*c)?;
    }
    Ok(spelled)
}
