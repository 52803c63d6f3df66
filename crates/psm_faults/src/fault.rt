//! Why a file gives no code, or no script.
ghost use Rattle.std.specs.Prelude.{◌≡◌};
ghost use Rattle.psm_token.specs.FaultTexts as tokens;
ghost use Rattle.psm_tree.specs.FaultTexts as trees;
ghost use Rattle.psm_faults.specs.FaultTexts.{text_of, refusal_text};
ghost use Rattle.psm_faults.specs.Reported.{reported_at, reported_of_rule, reported_of_script, reported_of_tokens, reported_of_tree};

use psm_check_script::CheckFault;
use psm_rules::{Fault as RuleFault, Rule};
use psm_token::{LexFault, Place};
use psm_tree::ParseFault;

/// What is wrong with a file at a place: the first fault of its tokens, that of the tree that they spell, or the first
/// rule that a part of the tree breaks (ISO/IEC 9075:1992, 5.2 and 11.3, and
/// ISO/IEC 9075-4:1996, module definitions).
#[derive(Clone, Copy, Debug, PartialEq, Eq)]
pub enum Fault {
    /// A byte that is part of no character.
    BadUtf8,
    /// A character that begins no token, a letter directly after a number, or the second quote of `""`.
    BadChar,
    /// A text without an end.
    OpenText,
    /// A delimited name without an end.
    OpenName,
    /// A text of more than 4000 characters.
    LongText,
    /// A number of more than 18 digits.
    LongNumber,
    /// A name of more than 128 characters.
    LongName,
    /// The token after 2,000,000 others.
    ManyTokens,
    /// A token, or the end, with which no spelling goes on.
    Syntax,
    /// A token that opens level 101 of nesting.
    Deep,
    /// A part that breaks a rule of the language.
    Broken(Rule),
}

/// Why there is no code, or no script.
#[derive(Clone, Copy, Debug, PartialEq, Eq)]
pub enum BuildFault {
    /// The file has this first fault, at that line and column. Both count from 1, the column in characters.
    Refused {
        line: u32,
        column: u32,
        fault: Fault,
    },
    /// There is not enough memory.
    Memory,
}

impl Fault {
    /// What is wrong, in words.
    pub fn text(self) -> &'static str
        ensures { result.now ≡ text_of self }
    {
        match self {
            Fault::BadUtf8 => "not UTF-8",
            Fault::BadChar => "bad character",
            Fault::OpenText => "text without end",
            Fault::OpenName => "name without end",
            Fault::LongText => "text too long",
            Fault::LongNumber => "number too long",
            Fault::LongName => "name too long",
            Fault::ManyTokens => "too many tokens",
            Fault::Syntax => "syntax fault",
            Fault::Deep => "nested too deep",
            Fault::Broken(rule) => rule.text(),
        }
    }

    // The refusal of a file that has the fault at that place.
    fn at(self, place: Place) -> BuildFault
        ensures { result ≡ reported_at place self }
    {
        BuildFault::Refused {
            line: place.line,
            column: place.column,
            fault: self,
        }
    }
}

/// The refusal of a file whose tokens have that fault. Its text is theirs.
pub fn refused_tokens(fault: LexFault) -> BuildFault
    ensures reported { result ≡ reported_of_tokens fault }
    ensures text { refusal_text result ≡ tokens.fault_text fault }
{
    match fault {
        LexFault::BadUtf8(place) => Fault::BadUtf8.at(place),
        LexFault::BadChar(place) => Fault::BadChar.at(place),
        LexFault::OpenText(place) => Fault::OpenText.at(place),
        LexFault::OpenName(place) => Fault::OpenName.at(place),
        LexFault::LongText(place) => Fault::LongText.at(place),
        LexFault::LongNumber(place) => Fault::LongNumber.at(place),
        LexFault::LongName(place) => Fault::LongName.at(place),
        LexFault::ManyTokens(place) => Fault::ManyTokens.at(place),
        LexFault::Memory => BuildFault::Memory,
    }
}

/// The refusal of a file whose tokens have no tree for that reason. Its text is that of the reason.
pub fn refused_tree(fault: ParseFault) -> BuildFault
    ensures reported { result ≡ reported_of_tree fault }
    ensures text { refusal_text result ≡ trees.fault_text fault }
{
    match fault {
        ParseFault::Syntax(place) => Fault::Syntax.at(place),
        ParseFault::Deep(place) => Fault::Deep.at(place),
        ParseFault::Memory => BuildFault::Memory,
    }
}

/// The refusal of a file with a part that breaks a rule.
pub(crate) fn refused_rule(fault: RuleFault) -> BuildFault
    ensures { result ≡ reported_of_rule fault }
{
    Fault::Broken(fault.rule).at(fault.place)
}

/// The refusal of a script that isn't accepted for that reason.
pub fn refused_script(fault: CheckFault) -> BuildFault
    ensures { result ≡ reported_of_script fault }
{
    match fault {
        CheckFault::Rule { place, rule } => Fault::Broken(rule).at(place),
        CheckFault::Memory => BuildFault::Memory,
    }
}
