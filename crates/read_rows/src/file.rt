//! Module files, written anew.
ghost use Rattle.std.specs.Prelude.{◌<◌, length};

use crate::fault::Fault;
use psm_print::format_module;
use std::alloc::Global;

/// The text that is printed of a file, and of that text too, with `\n` for the end of a line.
pub fn file(alloc: Global, bytes: &[u8]) -> Result<String, Fault>
    requires { length bytes.now < 4294967295 }
{
    let printed = format_module(alloc, bytes)?;
    if printed.len() >= 4_294_967_295 {
        return Err(Fault::Row);
    }
    let again = format_module(alloc, printed.as_bytes())?;
    if again.as_str() == printed.as_str() {
        in_one_line(alloc, printed.trim_end())
    } else {
        Err(Fault::Unstable)
    }
}

fn in_one_line(alloc: Global, text: &str) -> Result<String, Fault> {
    let mut line = String::from_str(alloc, "ok ")?;
    for c in text.chars() {
        match c {
            '\n' => line.push_str("\\n")?,
            '\r' => line.push_str("\\r")?,
            '\t' => line.push_str("\\t")?,
            c => line.push(c)?,
        }
    }
    Ok(line)
}
