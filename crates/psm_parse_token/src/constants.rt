//! Constants (ISO/IEC 9075:1992, 5.3).
ghost use Rattle.psm_grammar.specs.Readers.{one};
ghost use Rattle.psm_token.specs.Kinds.{kind};
ghost use Rattle.psm_tree.specs.ExprGrammar.{constant as constant_part};
ghost use Rattle.psm_tree.specs.Readers.{Takes, TakesAs, reading};
ghost use Rattle.psm_tree.specs.Tests.{plus_minus as plus_minus_test};

use crate::cursor::Tokens;
use psm_grammar::Halt;
use psm_token::{Place, Sign as SignToken, Word};
use psm_tree::{Constant, ConstantForm, Sign};
use std::alloc::Global;

/// Takes `+` or `-`, with its place; `Syntax` where another token or none stands there.
pub fn plus_minus(tokens: &mut Tokens) -> Result<(Place, Sign), Halt>
    ensures { TakesAs (λ x. record { place = x.0; value = x.1 }) (one kind plus_minus_test tokens.old.rest.now) result tokens.new.rest.now }
{
    if tokens.at_sign(SignToken::Minus) {
        let place = tokens.sign(SignToken::Minus)?;
        return Ok((place, Sign::Minus));
    }
    let place = tokens.sign(SignToken::Plus)?;
    Ok((place, Sign::Plus))
}

/// `["+" | "-"] num | text | NULL`. The fault is at a first token that begins none of these, or after the
/// sign.
#[tactic(auto, using(psm_tree::proofs::Reading::steps), unfolding(psm_tree::specs::ExprGrammar::constant))]
pub fn constant(alloc: Global, tokens: &mut Tokens, levels: u32) -> Result<Constant, Halt>
    ensures { Takes (reading levels constant_part tokens.old.rest.now) result tokens.new.rest.now }
{
    if tokens.at_number() {
        let (place, number) = tokens.number()?;
        let form = ConstantForm::Number { sign: None, number };
        return Ok(Constant { place, form });
    }
    if tokens.at_text() {
        let (place, text) = tokens.text(alloc)?;
        let form = ConstantForm::Text(text);
        return Ok(Constant { place, form });
    }
    if tokens.at(Word::Null) {
        let place = tokens.word(Word::Null)?;
        let form = ConstantForm::Null;
        return Ok(Constant { place, form });
    }
    let (place, sign) = plus_minus(tokens)?;
    let (_, number) = tokens.number()?;
    let sign = Some(sign);
    let form = ConstantForm::Number { sign, number };
    Ok(Constant { place, form })
}
