//! `psm`: compiles an SQL server module, writes its code as a listing, and runs scripts over either.
#![tactic(auto)]

mod top;
mod words;

use psm_files::Status;
use psm_io::{FileShelf, StdSink};
use std::alloc::{AllocError, Global};
use std::env;
use std::io::ErrorKind;
use std::process::ExitCode;
use std::rt::Env;
use top::psm;

#[cfg(test)]
mod tests;

fn main(rt: HostRuntime) -> ExitCode {
    let alloc = rt.alloc();
    let status = match words_after_name(&rt, alloc) {
        Err(AllocError) => Status::Memory,
        Ok(words) => {
            let mut shelf = FileShelf::new(&rt, alloc);
            let mut out = StdSink::new(&rt);
            psm(alloc, &words, &mut shelf, &mut out)
        }
    };
    ExitCode::from(status.number())
}

// The words after the program's name, or none where one of them is not UTF-8.
fn words_after_name(
    rt: &(impl Env + AllocGlobal),
    alloc: Global,
) -> Result<Vec<String>, AllocError> {
    let mut words = Vec::new(alloc);
    match env::args(rt) {
        Ok(args) => {
            for word in args.skip(1) {
                words.push(word)?;
            }
            Ok(words)
        }
        Err(fault) => match fault.kind() {
            ErrorKind::OutOfMemory => Err(AllocError),
            _ => Ok(words),
        },
    }
}
