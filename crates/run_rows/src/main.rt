//! Reads cases from standard input, runs each over both stores, and prints what was written and how the runs ended.
//!
//! A case begins with a line `== NAME`. Its other lines are texts of files, and lines that begin with `= `: after `= module` stands the
//! module file, after `= script` the script, and after `= after` a second script, which is run over the tables that the first one
//! left, with 1,000,000 turns and a sink that takes all. `= turns N` gives the turns of the script; without it there are 1,000,000 too.
//! At `= put N keeps K` put N of the sink fails, and K bytes of its piece are kept, or all of it with `= put N keeps all`; at
//! `= put N memory` it finds no memory. Files that a case doesn't give are those of the case before: a new module comes without scripts,
//! and a new script without a second one. No end of line is after the last line of a file. Empty lines are skipped, and a line that
//! begins with `#` stands between cases and is printed as it is.
//!
//! After the name stands what was written, with ` ..` after a line that isn't whole, and a line `= END` with the end of the run. The
//! same follows for the second script. Where a file is refused, the line of its first fault is all. Where the stores differ, it says so,
//! and both answers follow: over the store that undoes changes, and over the one that keeps copies.
#![tactic(auto)]

mod answer;
mod case;
mod cases;
mod program;
mod session_run;
mod sink;

use anyhow::Result;
use cases::print_cases;
use std::io;

fn main(rt: HostRuntime) -> Result<()> {
    let alloc = rt.alloc();
    let text = io::read_to_string(alloc, rt.reader())?;
    print_cases(&rt, alloc, text.as_str())
}
