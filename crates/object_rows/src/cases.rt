//! The cases of a text.

use crate::made::answered;
use crate::unfolded::unfolded;
use anyhow::Result;
use std::alloc::Global;

/// Prints the title of each case with its answers.
pub fn print_cases(rt: &impl Print, alloc: Global, text: &str) -> Result<()> {
    let mut listing = String::new(alloc);
    for line in text.lines() {
        if line.starts_with('#') {
            println!(rt; "{line}")?;
            listing = String::new(alloc);
        } else if let Some(words) = line.strip_prefix('=') {
            let answer = answered(alloc, listing.as_str(), words)?;
            println!(rt; "{answer}")?;
        } else {
            unfolded(&mut listing, line)?;
            listing.push('\n')?;
        }
    }
    Ok(())
}
