//! The rows.

/// What a text is read as.
#[derive(Clone, Copy, Debug, PartialEq, Eq)]
pub enum Kind {
    /// A whole module file, which is printed.
    File,
    /// A whole script.
    Script,
    /// A list of tokens.
    Tokens,
    /// What begins at a token and ends where it can't go on.
    Run(Part),
}

impl Kind {
    fn named(word: &str) -> Option<Kind> {
        match word {
            "file" => Some(Kind::File),
            "script" => Some(Kind::Script),
            "tokens" => Some(Kind::Tokens),
            "expr" => Some(Kind::Run(Part::Expression)),
            "picks" => Some(Kind::Run(Part::Picks)),
            "target" => Some(Kind::Run(Part::Target)),
            "type" => Some(Kind::Run(Part::DataType)),
            "stmt" => Some(Kind::Run(Part::Statement)),
            _ => None,
        }
    }
}

/// A part of a file that has a parser of its own.
#[derive(Clone, Copy, Debug, PartialEq, Eq)]
pub enum Part {
    Expression,
    Picks,
    Target,
    DataType,
    Statement,
}

/// A text, and how to read it.
#[derive(Clone, Copy, Debug)]
pub struct Row<'a> {
    /// Whether the text is cut at each blank.
    pub cut: bool,
    pub kind: Kind,
    /// The number of the token that a run begins at.
    pub at: u32,
    /// How many levels are open there.
    pub depth: u32,
    pub text: &'a str,
}

impl Row<'_> {
    /// The row of a line, if it is one.
    pub fn of(line: &str) -> Option<Row<'_>> {
        match line.strip_prefix("cut ") {
            Some(line) => uncut(line).map(|row| Row { cut: true, ..row }),
            None => uncut(line),
        }
    }
}

fn uncut(line: &str) -> Option<Row<'_>> {
    let (head, text) = match line.split_once(' ') {
        Some(parts) => parts,
        None => (line, ""),
    };
    let (head, depth) = numbered(head, '/')?;
    let (word, at) = numbered(head, '@')?;
    Some(Row {
        cut: false,
        kind: Kind::named(word)?,
        at,
        depth,
        text,
    })
}

// What stands before the mark, and the number after it, which is 0 where there is no mark.
fn numbered(head: &str, mark: char) -> Option<(&str, u32)> {
    match head.split_once(mark) {
        None => Some((head, 0)),
        Some((front, number)) => Some((front, number.parse::<u32>().ok()?)),
    }
}
