//! What a text is.

use anyhow::{Result, bail};
use psm_load::{LoadFault, load};
use std::alloc::Global;

/// `OK` for an object, or the first line by which the text is none, and why.
pub fn answer(alloc: Global, text: &str) -> Result<String> {
    let bytes = text.as_bytes();
    if bytes.len() >= 4_294_967_295 {
        bail!("too long");
    }
    match load(alloc, bytes) {
        Ok(_) => Ok(String::from_str(alloc, "OK")?),
        Err(LoadFault::Refused { line, fault }) => {
            Ok(format!(in alloc; "object {line} {}", fault.text())?)
        }
        Err(LoadFault::Memory) => bail!("no memory"),
    }
}
