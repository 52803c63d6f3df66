//! The cases of a text.

use crate::answer::answer;
use crate::case::Case;
use anyhow::Result;
use std::alloc::Global;

/// Prints each case of a text with its answer.
pub fn print_cases(rt: &impl Print, alloc: Global, text: &str) -> Result<()> {
    let mut case = Case::new(alloc);
    let mut named = false;
    for line in text.lines() {
        if line.is_empty() {
            continue;
        }
        let name = line.strip_prefix("== ");
        if name.is_some() || line.starts_with('#') {
            if named {
                print_answer(rt, alloc, &case)?;
            }
            println!(rt; "{line}")?;
            named = name.is_some();
            case.begin();
        } else {
            case.read(alloc, line)?;
        }
    }
    if named {
        print_answer(rt, alloc, &case)?;
    }
    Ok(())
}

// The answer to a case, and an empty line.
fn print_answer(rt: &impl Print, alloc: Global, case: &Case) -> Result<()> {
    let answer = answer(alloc, case)?;
    println!(rt; "{answer}")?;
    Ok(())
}
