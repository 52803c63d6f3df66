//! Data types (ISO/IEC 9075:1992, 6.1).
ghost use Rattle.std.specs.Prelude.{option_map};
ghost use Rattle.psm_grammar.specs.Forms.{optional};
ghost use Rattle.psm_tree.specs.ExprGrammar.{type_length as type_length_part, scale as scale_part, precision as precision_part, numeric_type as numeric_type_part, varchar_type as varchar_type_part, plain_type as plain_type_part, varying as varying_part, char_length as char_length_part, char_rest as char_rest_part, char_type as char_type_part, data_type as data_type_part};
ghost use Rattle.psm_tree.specs.Readers.{Takes, TakesAs, reading};

use crate::cursor::Tokens;
use psm_grammar::Halt;
use psm_num::Dec;
use psm_token::{Place, Sign, Word};
use psm_tree::{DataType, Precision, TypeForm};

const INTEGER_WORDS: [Word; 2] = [Word::Integer, Word::Int];

const NUMERIC_WORDS: [Word; 3] = [Word::Numeric, Word::Decimal, Word::Dec];

const CHAR_WORDS: [Word; 2] = [Word::Char, Word::Character];

/// `"(" num ")"`: the place of the number, and the number.
#[tactic(auto, using(psm_tree::proofs::Reading::steps), unfolding(psm_tree::specs::ExprGrammar::type_length))]
pub fn type_length(tokens: &mut Tokens, levels: u32) -> Result<(Place, Dec), Halt>
    ensures { TakesAs (λ x. record { place = x.0; value = x.1 }) (reading levels type_length_part tokens.old.rest.now) result tokens.new.rest.now }
{
    tokens.sign(Sign::LeftParen)?;
    let number = tokens.number()?;
    tokens.sign(Sign::RightParen)?;
    Ok(number)
}

/// `["," num]`
#[tactic(auto, using(psm_tree::proofs::Reading::steps, psm_tree::proofs::Firsts::first_scale), unfolding(psm_tree::specs::ExprGrammar::scale))]
fn perhaps_scale(tokens: &mut Tokens, levels: u32) -> Result<Option<(Place, Dec)>, Halt>
    ensures { TakesAs (option_map (λ x. record { place = x.0; value = x.1 })) (reading levels (optional scale_part) tokens.old.rest.now) result tokens.new.rest.now }
{
    if !tokens.at_sign(Sign::Comma) {
        return Ok(None);
    }
    tokens.sign(Sign::Comma)?;
    Ok(Some(tokens.number()?))
}

/// `"(" num ["," num] ")"`
#[tactic(auto, using(psm_tree::proofs::Reading::steps), unfolding(psm_tree::specs::ExprGrammar::precision))]
fn precision(tokens: &mut Tokens, levels: u32) -> Result<Precision, Halt>
    ensures { Takes (reading levels precision_part tokens.old.rest.now) result tokens.new.rest.now }
{
    tokens.sign(Sign::LeftParen)?;
    let (_, precision) = tokens.number()?;
    let scale = perhaps_scale(tokens, levels)?;
    tokens.sign(Sign::RightParen)?;
    let scale = match scale {
        Some((_, scale)) => Some(scale),
        None => None,
    };
    Ok(Precision { precision, scale })
}

/// `["(" num ["," num] ")"]`
#[tactic(auto, using(psm_tree::proofs::Reading::steps, psm_tree::proofs::Firsts::first_precision))]
fn perhaps_precision(tokens: &mut Tokens, levels: u32) -> Result<Option<Precision>, Halt>
    ensures { Takes (reading levels (optional precision_part) tokens.old.rest.now) result tokens.new.rest.now }
{
    if !tokens.at_sign(Sign::LeftParen) {
        return Ok(None);
    }
    Ok(Some(precision(tokens, levels)?))
}

/// `(NUMERIC | DECIMAL | DEC) ["(" num ["," num] ")"]`
#[tactic(auto, using(psm_tree::proofs::Reading::steps), unfolding(psm_tree::specs::ExprGrammar::numeric_type))]
fn numeric_type(tokens: &mut Tokens, levels: u32) -> Result<DataType, Halt>
    ensures { Takes (reading levels numeric_type_part tokens.old.rest.now) result tokens.new.rest.now }
{
    let place = tokens.one_of(&NUMERIC_WORDS)?;
    let precision = perhaps_precision(tokens, levels)?;
    let form = TypeForm::Numeric(precision);
    Ok(DataType { place, form })
}

/// `VARCHAR "(" num ")"`
#[tactic(auto, using(psm_tree::proofs::Reading::steps), unfolding(psm_tree::specs::ExprGrammar::varchar_type))]
fn varchar_type(tokens: &mut Tokens, levels: u32) -> Result<DataType, Halt>
    ensures { Takes (reading levels varchar_type_part tokens.old.rest.now) result tokens.new.rest.now }
{
    let place = tokens.word(Word::VarChar)?;
    let (_, most) = type_length(tokens, levels)?;
    let form = TypeForm::VarChar(most);
    Ok(DataType { place, form })
}

/// `SMALLINT | INTEGER | INT | (NUMERIC | DECIMAL | DEC) [..] | VARCHAR "(" num ")"`: a type that does not
/// begin with `CHAR`.
#[tactic(auto, using(psm_tree::proofs::Reading::steps, psm_tree::proofs::Firsts::first_numeric_type), unfolding(psm_tree::specs::ExprGrammar::plain_type))]
pub fn plain_type(tokens: &mut Tokens, levels: u32) -> Result<DataType, Halt>
    ensures { Takes (reading levels plain_type_part tokens.old.rest.now) result tokens.new.rest.now }
{
    if tokens.at(Word::SmallInt) {
        let place = tokens.word(Word::SmallInt)?;
        let form = TypeForm::SmallInt;
        return Ok(DataType { place, form });
    }
    if tokens.at_one_of(&INTEGER_WORDS) {
        let place = tokens.one_of(&INTEGER_WORDS)?;
        let form = TypeForm::Integer;
        return Ok(DataType { place, form });
    }
    if tokens.at_one_of(&NUMERIC_WORDS) {
        return numeric_type(tokens, levels);
    }
    varchar_type(tokens, levels)
}

/// `VARYING "(" num ")"`, after `CHAR`.
#[tactic(auto, using(psm_tree::proofs::Reading::steps), unfolding(psm_tree::specs::ExprGrammar::varying))]
pub fn varying(tokens: &mut Tokens, levels: u32) -> Result<TypeForm, Halt>
    ensures { Takes (reading levels varying_part tokens.old.rest.now) result tokens.new.rest.now }
{
    tokens.word(Word::Varying)?;
    let (_, most) = type_length(tokens, levels)?;
    Ok(TypeForm::VarChar(most))
}

/// `["(" num ")"]`, after `CHAR`.
#[tactic(auto, using(psm_tree::proofs::Reading::steps, psm_tree::proofs::Firsts::first_type_length), unfolding(psm_tree::specs::ExprGrammar::char_length))]
pub fn char_length(tokens: &mut Tokens, levels: u32) -> Result<TypeForm, Halt>
    ensures { Takes (reading levels char_length_part tokens.old.rest.now) result tokens.new.rest.now }
{
    if !tokens.at_sign(Sign::LeftParen) {
        return Ok(TypeForm::Char(None));
    }
    let (_, most) = type_length(tokens, levels)?;
    Ok(TypeForm::Char(Some(most)))
}

/// `VARYING "(" num ")" | ["(" num ")"]`, after `CHAR`.
#[tactic(auto, using(psm_tree::proofs::Reading::steps, psm_tree::proofs::Firsts::first_varying), unfolding(psm_tree::specs::ExprGrammar::char_rest))]
pub fn char_rest(tokens: &mut Tokens, levels: u32) -> Result<TypeForm, Halt>
    ensures { Takes (reading levels char_rest_part tokens.old.rest.now) result tokens.new.rest.now }
{
    if tokens.at(Word::Varying) {
        return varying(tokens, levels);
    }
    char_length(tokens, levels)
}

/// `(CHAR | CHARACTER) char_rest`
#[tactic(auto, using(psm_tree::proofs::Reading::steps), unfolding(psm_tree::specs::ExprGrammar::char_type))]
fn char_type(tokens: &mut Tokens, levels: u32) -> Result<DataType, Halt>
    ensures { Takes (reading levels char_type_part tokens.old.rest.now) result tokens.new.rest.now }
{
    let place = tokens.one_of(&CHAR_WORDS)?;
    let form = char_rest(tokens, levels)?;
    Ok(DataType { place, form })
}

/// A data type.
#[tactic(auto, using(psm_tree::proofs::Reading::steps, psm_tree::proofs::Firsts::first_char_type), unfolding(psm_tree::specs::ExprGrammar::data_type))]
pub fn data_type(tokens: &mut Tokens, levels: u32) -> Result<DataType, Halt>
    ensures { Takes (reading levels data_type_part tokens.old.rest.now) result tokens.new.rest.now }
{
    if tokens.at_one_of(&CHAR_WORDS) {
        return char_type(tokens, levels);
    }
    plain_type(tokens, levels)
}
