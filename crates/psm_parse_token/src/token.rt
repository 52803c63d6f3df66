//! What a token is: one of some words or signs, or a name (ISO/IEC 9075:1992, 5.2).
ghost use Rattle.std.specs.Prelude.{◌≡◌, true, map, IfOk};
ghost use Rattle.psm_grammar.specs.Language.{has};
ghost use Rattle.psm_token.specs.Kinds.{kinds_of, token_kind};
ghost use Rattle.psm_token.specs.Signs.{sign_kind};
ghost use Rattle.psm_token.specs.Words.{text_of};
ghost use Rattle.psm_tree.specs.Tests.{name_kinds, spelled};

use psm_text::{Name, NameFault};
use psm_token::{Sign, Token, Word};
use std::alloc::{AllocError, Global};

/// Whether the kind is that of one of the words.
pub(crate) fn is_word_of(number: u8, words: &[Word]) -> bool
    ensures { result ≡ has number (kinds_of words.now) }
{
    match words {
        [] => false,
        [word, words @ ..] => number == word.kind() || is_word_of(number, words),
    }
}

/// Whether the kind is that of one of the signs.
pub(crate) fn is_sign_of(number: u8, signs: &[Sign]) -> bool
    ensures { result ≡ has number (map sign_kind signs.now) }
{
    match signs {
        [] => false,
        [sign, signs @ ..] => number == sign.kind() || is_sign_of(number, signs),
    }
}

/// Whether the token is a name where the grammar has a name: a name, or a word that is not reserved.
#[tactic(auto, using(crate::proofs::NameKinds::words_are, crate::proofs::NameKinds::signs_are))]
pub(crate) fn is_name(token: &Token) -> bool
    ensures { result ≡ has (token_kind token.now) name_kinds }
{
    match token {
        Token::Word(word) => !word.is_reserved(),
        Token::Name(_) => true,
        Token::Number(_) => false,
        Token::Text(_) => false,
        Token::Sign(_) => false,
    }
}

/// The name that a word is where it is not reserved.
#[tactic(auto, using(crate::proofs::NameKinds::word_named))]
pub(crate) fn word_name(alloc: Global, word: Word) -> Result<Name, AllocError>
    ensures { IfOk result (λ n. n ≡ text_of word) }
{
    match Name::make(alloc, word.text()) {
        Ok(name) => Ok(name),
        Err(NameFault::Memory) => Err(AllocError),
        Err(_) => unreachable!(),
    }
}

/// The name that a token of a name's kind is.
#[tactic(auto, using(crate::proofs::NameKinds::signs_are))]
pub(crate) fn spelled_name(alloc: Global, token: &Token) -> Result<Name, AllocError>
    requires { has (token_kind token.now) name_kinds ≡ true }
    ensures { IfOk result (λ n. n ≡ spelled token.now) }
{
    match token {
        Token::Word(word) => word_name(alloc, *word),
        Token::Name(name) => name.copy(alloc),
        Token::Number(_) => unreachable!(),
        Token::Text(_) => unreachable!(),
        Token::Sign(_) => unreachable!(),
    }
}
