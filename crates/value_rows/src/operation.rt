//! The operations of lines of code.

use crate::fault::Fault;
use crate::operands::{Operands, number};
use psm_exprcode::{Letter, Op};
use psm_text::Side;
use psm_value::{Datum, SqlType};
use std::alloc::Global;

/// The operation of a line. A number or a text is a constant.
pub fn operation(alloc: Global, operands: &mut Operands<'_>) -> Result<Op, Fault> {
    if operands.begin_with_text() {
        let text = operands.text(alloc)?;
        return Ok(Op::Constant(Letter::T, Datum::Text(text)));
    }
    let word = operands.word()?;
    match plain(word).or(plain_test(word)).or(numbered(word)) {
        Some(op) => Ok(op),
        None => Ok(Op::Constant(Letter::N, Datum::Num(number(word)?))),
    }
}

// One that stands alone.
fn plain(word: &str) -> Option<Op> {
    Some(match word {
        "NULLN" => Op::Constant(Letter::N, Datum::Null),
        "NULLT" => Op::Constant(Letter::T, Datum::Null),
        "NULLB" => Op::Constant(Letter::B, Datum::Null),
        "DUP" => Op::Duplicate,
        "DROP" => Op::Drop,
        "NIP" => Op::DropBelow,
        "NEG" => Op::Negate,
        "ADD" => Op::Add,
        "SUB" => Op::Subtract,
        "MUL" => Op::Multiply,
        "DIV" => Op::Divide,
        "CAT" => Op::Concatenate,
        "LEN" => Op::CharacterLength,
        "POS" => Op::Position,
        "SUB2" => Op::SubstringFrom,
        "SUB3" => Op::SubstringFromFor,
        "UP" => Op::Upper,
        "LOW" => Op::Lower,
        _ => return None,
    })
}

fn plain_test(word: &str) -> Option<Op> {
    Some(match word {
        "EQ" => Op::Equal,
        "NE" => Op::NotEqual,
        "LT" => Op::Less,
        "LE" => Op::LessOrEqual,
        "GT" => Op::Greater,
        "GE" => Op::GreaterOrEqual,
        "AND" => Op::And,
        "OR" => Op::Or,
        "NOT" => Op::Not,
        "ISNULL" => Op::IsNull,
        "LIKE" => Op::Like,
        "LIKEE" => Op::LikeEscape,
        "BETW" => Op::Between,
        "NULLIF" => Op::NullIf,
        _ => return None,
    })
}

// One with a number after a point.
fn numbered(word: &str) -> Option<Op> {
    let (name, number) = word.split_once('.')?;
    let number = number.parse::<u32>().ok()?;
    match name {
        "VAR" => Some(Op::Variable(number)),
        "COL" => Some(Op::Column(number)),
        "IN" => Some(Op::In(number)),
        "JMP" => Some(Op::Jump(number)),
        "JNOT" => Some(Op::JumpUnlessTrue(number)),
        "JSET" => Some(Op::JumpUnlessNull(number)),
        _ => sized(name, number),
    }
}

fn sized(name: &str, number: u32) -> Option<Op> {
    let size = u8::try_from(number).ok()?;
    let n = u16::from(size);
    Some(match name {
        "SCALE" => Op::Rescale(size),
        "CASTS" => Op::Cast(SqlType::SmallInt),
        "CASTN" => Op::Cast(SqlType::Numeric { p: 5, s: size }),
        "CASTC" => Op::Cast(SqlType::Char { n }),
        "CASTV" => Op::Cast(SqlType::VarChar { n }),
        "TRIML" => Op::Trim(Side::Leading),
        "TRIMT" => Op::Trim(Side::Trailing),
        "TRIMB" => Op::Trim(Side::Both),
        _ => return None,
    })
}
