//! Tokens that are written and read again.

use crate::display;
use psm_spell::Writer;
use psm_token::{Placed, Token, TokenList};
use std::alloc::{AllocError, Global};

/// The text that is written of the tokens.
pub fn written(alloc: Global, list: &[Placed]) -> Result<String, AllocError> {
    let mut writer = Writer::new(alloc);
    for placed in list {
        write(&mut writer, &placed.token)?;
    }
    Ok(writer.into_text())
}

fn write(writer: &mut Writer, token: &Token) -> Result<(), AllocError> {
    match token {
        Token::Word(word) => writer.word(*word),
        Token::Name(name) => writer.name(name),
        Token::Number(number) => writer.number(*number),
        Token::Text(text) => writer.text(text),
        Token::Sign(sign) => writer.sign(*sign),
    }
}

/// Whether two lists have the same tokens, wherever they stand.
pub fn read_again(alloc: Global, list: &TokenList, again: &TokenList) -> Result<bool, AllocError> {
    let first = display::without_positions(alloc, list)?;
    let second = display::without_positions(alloc, again)?;
    Ok(first.as_str() == second.as_str())
}
