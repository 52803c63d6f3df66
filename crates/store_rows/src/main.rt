//! Reads rows from standard input, one a line, and prints each with what a table and the stores answer. The stored rows are
//! those that `run_rows` doesn't try; most are calls in an order to which no script leads.
//!
//! A row is an operation, and its operands after a blank each. The tables have rows of a name, a size and a code:
//! `'a' 1.5 7`, where the code may be `NULL`. Name and size are the key, and the code is UNIQUE. An operation is on
//! a table that stands alone, or, with a number after an `@`, on that table of a store of two, and is then done in
//! a store that keeps copies and in one that keeps a journal. A mark goes by how many were open before it.
//! A line that begins with `#` is printed as it is, and after an empty line all tables are new.
//!
//! After the row stands what the operation gives, or why it is refused, or both where the stores differ.
#![tactic(auto)]

mod alone;
mod answer;
mod bench;
mod call;
mod definition;
mod display;
mod fault;
mod group;
mod like;
mod look;
mod operands;
mod walk;

use anyhow::Result;
use group::print_groups;
use std::io;

fn main(rt: HostRuntime) -> Result<()> {
    let alloc = rt.alloc();
    let text = io::read_to_string(alloc, rt.reader())?;
    print_groups(&rt, alloc, text)
}
