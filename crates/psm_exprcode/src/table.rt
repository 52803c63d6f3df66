//! The table of operations: what each is called in a listing, what it takes and what it puts in its place.
ghost use Rattle.std.specs.Prelude.{◌≡◌, [], ◌∷◌, ◌++◌, codes, replicate, Some, None, option_map};
ghost use Rattle.psm_exprcode.specs.declared.op.Letter.TheVariants.{N, T, B};
ghost use Rattle.psm_exprcode.specs.Operations.{effect, jumping, plain};
ghost use Rattle.psm_exprcode.specs.Table.{effect_of, letters_of};

use crate::op::{Letter, Op};
use psm_value::SqlType;

/// Letters of operands that stand on one another: n of one letter, on one other or on none.
#[derive(Clone, Copy, Debug, PartialEq, Eq)]
pub struct Letters {
    /// The letter of those on top.
    pub letter: Letter,
    /// How many of them there are.
    pub count: u32,
    /// The letter of the one operand below them.
    pub below: Option<Letter>,
}

/// A row of the table of operations.
#[derive(Clone, Copy, Debug)]
pub struct Entry {
    /// What a listing calls it.
    pub mnemonic: &'static str,
    /// The operands that it takes.
    pub takes: Letters,
    /// What it puts in their place where it goes on at the line that follows; `None` where it never does.
    pub fall_through: Option<Letters>,
    /// The line at which it may go on instead, and what it puts there.
    pub branching: Option<(u32, Letters)>,
}

impl Letters {
    /// No letter.
    pub fn none() -> Letters
        ensures { letters_of result ≡ [] }
    {
        many(Letter::N, 0)
    }
}

fn many(letter: Letter, count: u32) -> Letters
    ensures { result ≡ record { letter = letter; count = count; below = None } }
{
    Letters {
        letter,
        count,
        below: None,
    }
}

fn many_on(below: Letter, letter: Letter, count: u32) -> Letters
    ensures { result ≡ record { letter = letter; count = count; below = Some below } }
{
    Letters {
        letter,
        count,
        below: Some(below),
    }
}

// An operation that goes on at the line that follows.
fn plain_entry(mnemonic: &'static str, takes: Letters, puts: Letters) -> Entry
    ensures { effect_of result ≡ plain mnemonic.now (letters_of takes) (letters_of puts) }
{
    Entry {
        mnemonic,
        takes,
        fall_through: Some(puts),
        branching: None,
    }
}

// One that takes n operands of one letter, and puts one.
fn maps(mnemonic: &'static str, letter: Letter, count: u32, puts: Letter) -> Entry
    ensures { effect_of result ≡ plain mnemonic.now (replicate count letter ++ []) (puts ∷ []) }
{
    plain_entry(mnemonic, many(letter, count), many(puts, 1))
}

impl Op {
    /// The row of the operation, where `kind` is the letter of a value that may be of either kind, and
    /// `other` that of an operand that may be of any.
    pub fn entry(&self, kind: Letter, other: Letter) -> Entry
        ensures { effect_of result ≡ effect self.now kind other }
    {
        match self {
            Op::Constant(letter, _) => maps("CONST", *letter, 0, *letter),
            Op::Variable(_) => maps("VAR", kind, 0, kind),
            Op::Column(_) => maps("COL", kind, 0, kind),
            Op::Duplicate => plain_entry("DUP", many(kind, 1), many(kind, 2)),
            Op::Drop => plain_entry("DROP", many(kind, 1), Letters::none()),
            Op::DropBelow => plain_entry("NIP", many_on(kind, other, 1), many(other, 1)),
            Op::Negate => maps("NEG", Letter::N, 1, Letter::N),
            Op::Add => maps("ADD", Letter::N, 2, Letter::N),
            Op::Subtract => maps("SUB", Letter::N, 2, Letter::N),
            Op::Multiply => maps("MUL", Letter::N, 2, Letter::N),
            Op::Divide => maps("DIV", Letter::N, 2, Letter::N),
            Op::Rescale(_) => maps("SCALE", Letter::N, 1, Letter::N),
            Op::Concatenate => maps("CAT", Letter::T, 2, Letter::T),
            Op::CharacterLength => maps("LEN", Letter::T, 1, Letter::N),
            Op::Position => maps("POS", Letter::T, 2, Letter::N),
            Op::SubstringFrom => substring("SUB2", 1),
            Op::SubstringFromFor => substring("SUB3", 2),
            Op::Trim(_) => maps("TRIM", Letter::T, 1, Letter::T),
            Op::Upper => maps("UP", Letter::T, 1, Letter::T),
            Op::Lower => maps("LOW", Letter::T, 1, Letter::T),
            Op::Equal => maps("EQ", kind, 2, Letter::B),
            Op::NotEqual => maps("NE", kind, 2, Letter::B),
            Op::Less => maps("LT", kind, 2, Letter::B),
            Op::LessOrEqual => maps("LE", kind, 2, Letter::B),
            Op::Greater => maps("GT", kind, 2, Letter::B),
            Op::GreaterOrEqual => maps("GE", kind, 2, Letter::B),
            Op::And => maps("AND", Letter::B, 2, Letter::B),
            Op::Or => maps("OR", Letter::B, 2, Letter::B),
            Op::Not => maps("NOT", Letter::B, 1, Letter::B),
            Op::IsNull => maps("ISNULL", kind, 1, Letter::B),
            Op::Like => maps("LIKE", Letter::T, 2, Letter::B),
            Op::LikeEscape => maps("LIKEE", Letter::T, 3, Letter::B),
            Op::Between => maps("BETW", kind, 3, Letter::B),
            Op::In(count) => among(kind, *count),
            Op::NullIf => maps("NULLIF", kind, 2, kind),
            Op::Cast(to) => maps("CAST", kind, 1, Letter::of_type(*to)),
            Op::Jump(index) => jump_entry("JMP", Letters::none(), None, *index, Letters::none()),
            Op::JumpUnlessTrue(index) => unless_true(*index),
            Op::JumpUnlessNull(index) => unless_null(*index, kind),
        }
    }

    /// What a listing calls the operation. What stands after it there isn't in it.
    pub fn mnemonic(&self) -> &'static str
        ensures { result.now ≡ (effect self.now N N).mnemonic }
    {
        self.entry(Letter::N, Letter::N).mnemonic
    }
}

fn substring(mnemonic: &'static str, numbers: u32) -> Entry
    ensures { effect_of result ≡ plain mnemonic.now (replicate numbers N ++ T ∷ []) (T ∷ []) }
{
    plain_entry(
        mnemonic,
        many_on(Letter::T, Letter::N, numbers),
        many(Letter::T, 1),
    )
}

fn among(kind: Letter, count: u32) -> Entry
    ensures { effect_of result ≡ plain (codes "IN") (replicate count kind ++ kind ∷ []) (B ∷ []) }
{
    plain_entry("IN", many_on(kind, kind, count), many(Letter::B, 1))
}

// One that may go on at an index.
fn jump_entry(
    mnemonic: &'static str,
    takes: Letters,
    fall_through: Option<Letters>,
    index: u32,
    there: Letters,
) -> Entry
    ensures { effect_of result ≡ jumping mnemonic.now (letters_of takes) (option_map letters_of fall_through) index (letters_of there) }
{
    Entry {
        mnemonic,
        takes,
        fall_through,
        branching: Some((index, there)),
    }
}

fn unless_true(index: u32) -> Entry
    ensures { effect_of result ≡ jumping (codes "JNOT") (B ∷ []) (Some []) index [] }
{
    let none = Letters::none();
    jump_entry("JNOT", many(Letter::B, 1), Some(none), index, none)
}

fn unless_null(index: u32, kind: Letter) -> Entry
    ensures { effect_of result ≡ jumping (codes "JSET") (kind ∷ []) (Some []) index (kind ∷ []) }
{
    let value = many(kind, 1);
    jump_entry("JSET", value, Some(Letters::none()), index, value)
}
