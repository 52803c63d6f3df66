//! What is printed of a row.

use anyhow::{Result, bail};
use psm_build::{BuildFault, build};
use std::alloc::Global;

/// The first fault of a module file, or that it is accepted.
pub fn answer(alloc: Global, text: &str) -> Result<String> {
    let bytes = unescaped(alloc, text)?;
    if bytes.len() >= 4_294_967_295 {
        bail!("too long");
    }
    match build(alloc, bytes.as_slice()) {
        Ok(_) => Ok(String::from_str(alloc, "accepted")?),
        Err(
            BuildFault::Refused {
                line,
                column,
                fault,
            },
        ) => Ok(format!(in alloc; "{line}:{column} {}", fault.text())?),
        Err(BuildFault::Memory) => bail!("no memory"),
    }
}

fn unescaped(alloc: Global, text: &str) -> Result<Vec<u8>> {
    let mut bytes = Vec::new(alloc);
    for (number, piece) in text.split('\\').enumerate() {
        let piece = piece.as_bytes();
        if number == 0 {
            bytes.extend_from_slice(piece)?;
        } else {
            match piece {
                [b'n', rest @ ..] => put(&mut bytes, b'\n', rest)?,
                [b'r', rest @ ..] => put(&mut bytes, b'\r', rest)?,
                [b't', rest @ ..] => put(&mut bytes, b'\t', rest)?,
                [b'b', rest @ ..] => put(&mut bytes, b'\\', rest)?,
                _ => bail!("bad escape"),
            }
        }
    }
    Ok(bytes)
}

fn put(bytes: &mut Vec<u8>, byte: u8, rest: &[u8]) -> Result<()> {
    bytes.push(byte)?;
    bytes.extend_from_slice(rest)?;
    Ok(())
}
