//! The lines that say what is wrong with a file.
ghost use Rattle.std.specs.Prelude.{◌≡◌, ◌++◌, IfOk};
ghost use Rattle.psm_files.specs.Message.{cannot_read, fault_line, object_fault_line, too_long};

use itoa::Buffer;
use std::alloc::{AllocError, Global};

/// The line of a file of that name that could not be read.
pub fn unread_line(alloc: Global, name: &str) -> Result<Vec<u8>, AllocError>
    ensures { IfOk result (λ it. it.items ≡ cannot_read name.now) }
{
    line_about(alloc, "cannot read ", name, "\n")
}

/// The line of a file of that name that is too long.
pub fn too_long_line(alloc: Global, name: &str) -> Result<Vec<u8>, AllocError>
    ensures { IfOk result (λ it. it.items ≡ too_long name.now) }
{
    line_about(alloc, "", name, " is longer than 16777216 bytes\n")
}

/// The line that says which file has a fault, at which line and column of it, and what is wrong.
pub fn fault_line(
    alloc: Global,
    noun: &str,
    line: u32,
    column: u32,
    text: &str,
) -> Result<Vec<u8>, AllocError>
    ensures { IfOk result (λ it. it.items ≡ fault_line noun.now line column text.now) }
{
    let mut bytes = Vec::from_slice(alloc, noun.as_bytes())?;
    bytes.extend_from_slice(b" ")?;
    bytes.extend_from_slice(Buffer::new().format(line).as_bytes())?;
    bytes.extend_from_slice(b":")?;
    bytes.extend_from_slice(Buffer::new().format(column).as_bytes())?;
    bytes.extend_from_slice(b" ")?;
    bytes.extend_from_slice(text.as_bytes())?;
    bytes.extend_from_slice(b"\n")?;
    Ok(bytes)
}

/// The line that says which line of an object has a fault, and what is wrong.
pub fn object_fault_line(alloc: Global, line: u32, text: &str) -> Result<Vec<u8>, AllocError>
    ensures { IfOk result (λ it. it.items ≡ object_fault_line line text.now) }
{
    let mut bytes = Vec::from_slice(alloc, b"object ")?;
    bytes.extend_from_slice(Buffer::new().format(line).as_bytes())?;
    bytes.extend_from_slice(b" ")?;
    bytes.extend_from_slice(text.as_bytes())?;
    bytes.extend_from_slice(b"\n")?;
    Ok(bytes)
}

// A line with a name in it.
fn line_about(alloc: Global, before: &str, name: &str, after: &str) -> Result<Vec<u8>, AllocError>
    ensures { IfOk result (λ line. line.items ≡ before.now ++ name.now ++ after.now) }
{
    let mut line = Vec::from_slice(alloc, before.as_bytes())?;
    line.extend_from_slice(name.as_bytes())?;
    line.extend_from_slice(after.as_bytes())?;
    Ok(line)
}
