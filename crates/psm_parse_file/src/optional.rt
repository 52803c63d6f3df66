//! Tokens that may be left out, a test of two tokens, and a list after its first item.
ghost use Rattle.std.specs.Prelude.{◌≡◌, ◌∷◌, [], IfOk};
ghost use Rattle.psm_grammar.specs.Forms.{optional};
ghost use Rattle.psm_grammar.specs.Grammar.{token};
ghost use Rattle.psm_grammar.specs.Readers.{starts_two};
ghost use Rattle.psm_token.specs.Kinds.{kind};
ghost use Rattle.psm_token.specs.Signs.{sign_kind};
ghost use Rattle.psm_token.specs.Words.{word_kind};
ghost use Rattle.psm_tree.specs.Readers.{Takes, reading};
ghost use Rattle.psm_tree.specs.Tests.{word as word_test, sign as sign_test};

use psm_grammar::Halt;
use psm_list::List;
use psm_parse_token::Tokens;
use psm_token::{Place, Sign, Word};
use std::alloc::AllocError;

/// `[word]`: its place, if it stands there.
#[tactic(auto, using(psm_tree::proofs::Reading::steps))]
pub(crate) fn perhaps_word(
    tokens: &mut Tokens,
    levels: u32,
    word: Word,
) -> Result<Option<Place>, Halt>
    ensures { Takes (reading levels (optional (token (word_test word))) tokens.old.rest.now) result tokens.new.rest.now }
{
    if !tokens.at(word) {
        return Ok(None);
    }
    Ok(Some(tokens.word(word)?))
}

/// `[sign]`: its place, if it stands there.
#[tactic(auto, using(psm_tree::proofs::Reading::steps))]
pub(crate) fn perhaps_sign(
    tokens: &mut Tokens,
    levels: u32,
    sign: Sign,
) -> Result<Option<Place>, Halt>
    ensures { Takes (reading levels (optional (token (sign_test sign))) tokens.old.rest.now) result tokens.new.rest.now }
{
    if !tokens.at_sign(sign) {
        return Ok(None);
    }
    Ok(Some(tokens.sign(sign)?))
}

/// Whether the word stands at the front, and the sign after it.
pub(crate) fn at_word_and_sign(tokens: &Tokens, word: Word, sign: Sign) -> bool
    ensures { result ≡ starts_two kind (word_kind word ∷ []) (sign_kind sign ∷ []) tokens.now.rest.now }
{
    match tokens.rest {
        [] => false,
        [_] => false,
        [first, next, ..] => {
            first.token.kind() == word.kind() && next.token.kind() == sign.kind()
        }
    }
}

/// The list of an item and those after it.
pub(crate) fn in_front<X: Drop>(first: X, others: List<X>) -> Result<List<X>, AllocError>
    ensures { IfOk result (λ items. items ≡ first ∷ others) }
{
    let mut items = others.into_vec();
    items.insert(0, first)?;
    Ok(List::of(items))
}
