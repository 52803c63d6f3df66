//! Lines in which parts are repeated.

use anyhow::Result;

/// Appends a line to a text, in which `\{9 PART}` stands for nine times the PART. Any other `\{` stands for itself.
pub fn unfolded(text: &mut String, line: &str) -> Result<()> {
    for (number, piece) in line.split("\\{").enumerate() {
        if number == 0 {
            text.push_str(piece)?;
        } else {
            put_piece(text, piece)?;
        }
    }
    Ok(())
}

// What stands after a `\{`, up to the next one.
fn put_piece(text: &mut String, piece: &str) -> Result<()> {
    if let Some((repeated, rest)) = piece.split_once('}') {
        if let Some((times, part)) = repeated.split_once(' ') {
            for _ in 0..times.parse::<u32>()? {
                text.push_str(part)?;
            }
            text.push_str(rest)?;
            return Ok(());
        }
    }
    text.push_str("\\{")?;
    text.push_str(piece)?;
    Ok(())
}
