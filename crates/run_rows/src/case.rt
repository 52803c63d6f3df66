//! A case.

use crate::sink::{Fate, Trouble};
use anyhow::{Result, bail};
use std::alloc::{AllocError, Global};

/// The turns of a script where a case states none.
pub const DEFAULT_TURNS: u64 = 1_000_000;

/// The files of a case, and how the first script is run.
#[derive(Drop)]
pub struct Case {
    pub module: String,
    pub script: String,
    pub following: Option<String>,
    pub turns: u64,
    pub trouble: Option<Trouble>,
    part: Part,
}

// The file to which the next line belongs.
#[derive(Clone, Copy)]
enum Part {
    None,
    Module,
    Script,
    After,
}

impl Case {
    /// A case without files.
    pub fn new(alloc: Global) -> Case {
        Case {
            module: String::new(alloc),
            script: String::new(alloc),
            following: None,
            turns: DEFAULT_TURNS,
            trouble: None,
            part: Part::None,
        }
    }

    /// Begins the next case, with the files of this one.
    pub fn begin(&mut self) {
        self.turns = DEFAULT_TURNS;
        self.trouble = None;
        self.part = Part::None;
    }

    /// Reads a line of the case.
    pub fn read(&mut self, alloc: Global, line: &str) -> Result<()> {
        match line.strip_prefix("= ") {
            Some(words) => self.read_words(alloc, words),
            None => self.read_text(line),
        }
    }

    fn read_words(&mut self, alloc: Global, words: &str) -> Result<()> {
        match words.split_once(' ') {
            None => self.begin_part(alloc, words),
            Some(("turns", number)) => {
                self.turns = number.parse::<u64>()?;
                Ok(())
            }
            Some(("put", words)) => {
                self.trouble = Some(trouble(words)?);
                Ok(())
            }
            Some(_) => bail!("no such words"),
        }
    }

    fn begin_part(&mut self, alloc: Global, word: &str) -> Result<()> {
        match word {
            "module" => {
                self.module = String::new(alloc);
                self.script = String::new(alloc);
                self.following = None;
                self.part = Part::Module;
            }
            "script" => {
                self.script = String::new(alloc);
                self.following = None;
                self.part = Part::Script;
            }
            "after" => {
                self.following = Some(String::new(alloc));
                self.part = Part::After;
            }
            _ => bail!("no such file"),
        }
        Ok(())
    }

    fn read_text(&mut self, line: &str) -> Result<()> {
        match (self.part, &mut self.following) {
            (Part::Module, _) => append(&mut self.module, line)?,
            (Part::Script, _) => append(&mut self.script, line)?,
            (Part::After, Some(following)) => append(following, line)?,
            _ => bail!("a line of no file"),
        }
        Ok(())
    }
}

fn append(file: &mut String, line: &str) -> Result<(), AllocError> {
    if !file.is_empty() {
        file.push('\n')?;
    }
    file.push_str(line)
}

// `N keeps K`, `N keeps all` or `N memory`.
fn trouble(words: &str) -> Result<Trouble> {
    let Some((number, fate)) = words.split_once(' ') else {
        bail!("no such put");
    };
    let fate = match fate.split_once(' ') {
        None if fate == "memory" => Fate::Memory,
        Some(("keeps", "all")) => Fate::Keeps(usize::MAX),
        Some(("keeps", count)) => Fate::Keeps(count.parse::<usize>()?),
        _ => bail!("no such put"),
    };
    Ok(Trouble {
        put: number.parse::<u32>()?,
        fate,
    })
}
