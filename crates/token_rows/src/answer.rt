//! What is printed after a row.

use crate::display;
use crate::fault::Fault;
use crate::spelled::{read_again, written};
use crate::unescape::unescaped;
use psm_token::{TokenList, tokens};
use std::alloc::{AllocError, Global};

/// The tokens of the row's text, or what is written of them, or what is wrong and where.
pub fn answer(alloc: Global, line: &str) -> Result<String, AllocError> {
    match answered(alloc, line) {
        Ok(text) => display::in_one_line(alloc, text.as_str()),
        Err(Fault::Memory) => Err(AllocError),
        Err(fault) => fault.display(alloc),
    }
}

fn answered(alloc: Global, line: &str) -> Result<String, Fault> {
    let (operation, escaped) = line.split_once(' ').ok_or(Fault::Row)?;
    let text = unescaped(alloc, escaped)?;
    let list = read(alloc, text.as_str())?;
    match operation {
        "tokens" => Ok(display::placed(alloc, &list)?),
        "spell" => spelled(alloc, &list),
        _ => Err(Fault::Row),
    }
}

fn read(alloc: Global, text: &str) -> Result<TokenList, Fault> {
    if text.len() >= 4_294_967_295 {
        return Err(Fault::Row);
    }
    Ok(tokens(alloc, text.as_bytes())?)
}

// What is written of the tokens, if it has the same tokens.
fn spelled(alloc: Global, list: &TokenList) -> Result<String, Fault> {
    let text = written(alloc, list.items())?;
    let again = read(alloc, text.as_str())?;
    if !read_again(alloc, list, &again)? {
        return Err(Fault::Otherwise);
    }
    Ok(display::shortened(alloc, text.as_str())?)
}
