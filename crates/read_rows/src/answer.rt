//! What is printed after a row.
ghost use Rattle.std.specs.Prelude.{◌<◌, length};

use crate::fault::Fault;
use crate::file::file;
use crate::row::{Kind, Row};
use crate::run::run;
use crate::script::script;
use crate::unescape::unescaped;
use psm_token::{TokenList, tokens};
use psm_tree::ParseFault;
use std::alloc::{AllocError, Global};

/// What was read of a row's text, or what is wrong with it and where.
pub fn answer(alloc: Global, line: &str) -> Result<String, AllocError> {
    match answered(alloc, line) {
        Ok(text) => Ok(text),
        Err(Fault::Memory) => Err(AllocError),
        Err(fault) => fault.reported(alloc),
    }
}

fn answered(alloc: Global, line: &str) -> Result<String, Fault> {
    let row = Row::of(line).ok_or(Fault::Row)?;
    let bytes = unescaped(alloc, row.text)?;
    if bytes.len() >= 4_294_967_295 {
        return Err(Fault::Row);
    }
    if row.cut {
        cuts(alloc, row, bytes.as_slice())
    } else {
        read(alloc, row, bytes.as_slice())
    }
}

/// How many of the texts up to a blank are at fault at their end, and how many are whole.
fn cuts(alloc: Global, row: Row<'_>, bytes: &[u8]) -> Result<String, Fault>
    requires { length bytes.now < 4294967295 }
{
    let mut faulty = 0u32;
    let mut whole = 0u32;
    for at in 0..bytes.len() {
        if bytes[at] == b' ' {
            let text = &bytes[..at];
            match read(alloc, row, text) {
                Ok(_) => whole = whole.saturating_add(1),
                Err(Fault::Tree(ParseFault::Syntax(place)))
                    if place == tokens(alloc, text)?.end() => {
                    faulty = faulty.saturating_add(1);
                }
                Err(fault) => return Err(fault),
            }
        }
    }
    Ok(format!(in alloc; "ok {faulty} cuts at fault at the end, {whole} whole")?)
}

fn read(alloc: Global, row: Row<'_>, bytes: &[u8]) -> Result<String, Fault>
    requires { length bytes.now < 4294967295 }
{
    match row.kind {
        Kind::File => file(alloc, bytes),
        Kind::Script => script(alloc, &tokens(alloc, bytes)?),
        Kind::Tokens => count(alloc, &tokens(alloc, bytes)?),
        Kind::Run(part) => run(alloc, &tokens(alloc, bytes)?, part, row),
    }
}

/// The number of tokens, and the end.
fn count(alloc: Global, list: &TokenList) -> Result<String, Fault> {
    let end = list.end();
    Ok(format!(in alloc;
        "ok {} tokens, end {}:{}",
        list.items().len(),
        end.line,
        end.column
    )?)
}
