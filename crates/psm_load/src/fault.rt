//! Why a text is no object.
ghost use Rattle.std.specs.Prelude.{◌≡◌};
ghost use Rattle.psm_load.specs.FaultTexts.{rule_text, text_of};

use psm_code::CodeRule;

/// What is wrong with a line.
#[derive(Clone, Copy, Debug, PartialEq, Eq)]
pub enum ObjectFault {
    /// It isn't one of the kind that is due there, or it is missing.
    NotObject,
    /// It breaks that rule of code.
    IllFormed(CodeRule),
}

/// Why a text gives no code.
#[derive(Clone, Copy, Debug, PartialEq, Eq)]
pub enum LoadFault {
    /// The first line with a fault, counted from 1, and what is wrong with it.
    Refused { line: u32, fault: ObjectFault },
    Memory,
}

impl ObjectFault {
    /// What is wrong, in words.
    pub fn text(self) -> &'static str
        ensures { result.now ≡ text_of self }
    {
        match self {
            ObjectFault::NotObject => "not an object text",
            ObjectFault::IllFormed(rule) => rule_text(rule),
        }
    }
}

// The number of a rule, and what it is that breaks it.
fn rule_text(rule: CodeRule) -> &'static str
    ensures { result.now ≡ rule_text rule }
{
    match rule {
        CodeRule::Range => "F1 number out of range",
        CodeRule::Target => "F2 target outside the routine",
        CodeRule::Stack => "F3 stack does not follow",
        CodeRule::Context => "F4 context does not follow",
        CodeRule::Resume => "F5 resume does not follow",
        CodeRule::Turn => "F6 backward jump without turn",
        CodeRule::Place => "F7 instruction not allowed here",
        CodeRule::Definition => "F8 schema or plan not valid",
    }
}
