//! A cursor over tokens.
ghost use Rattle.std.specs.Prelude.{◌≡◌, ◌<◌, [], ◌∷◌, length, map, IfOk};
ghost use Rattle.psm_grammar.specs.Readers.{starts, starts_two, one};
ghost use Rattle.psm_token.specs.Kinds.{kinds_of, name_kind, number_kind, text_kind, kind};
ghost use Rattle.psm_token.specs.Signs.{sign_kind};
ghost use Rattle.psm_token.specs.Words.{word_kind};
ghost use Rattle.psm_tree.specs.Readers.{Takes, TakesAs, opening};
ghost use Rattle.psm_tree.specs.Tests.{name_kinds, word as word_test, sign as sign_test, name as name_test, number as number_test, text as text_test};
ghost use Rattle.psm_parse_token.specs.Among.{among};
ghost use Rattle.psm_parse_token.specs.Ended.{ended};

use crate::token::{is_name, is_sign_of, is_word_of, spelled_name};
use psm_grammar::Halt;
use psm_num::Dec;
use psm_text::Text;
use psm_token::{NUMBER_KIND, Place, Placed, Sign, TEXT_KIND, Token, Word};
use psm_tree::Identifier;
use std::alloc::Global;

/// The tokens that are left. A call that takes tokens takes them off the front; where it fails, the error
/// holds the number of tokens that are left at the fault.
pub struct Tokens<'a> {
    pub rest: &'a [Placed],
}

impl<'a> Tokens<'a> {
    /// A cursor before the first of the tokens.
    pub fn of(tokens: &'a [Placed]) -> Tokens<'a>
        ensures { result.rest.now ≡ tokens.now }
    {
        Tokens { rest: tokens }
    }

    /// The number of tokens that are left.
    pub fn left(&self) -> usize
        ensures { result ≡ length self.now.rest.now }
    {
        self.rest.len()
    }

    /// Whether the word stands at the front.
    pub fn at(&self, word: Word) -> bool
        ensures { result ≡ starts kind (word_kind word ∷ []) self.now.rest.now }
    {
        match self.rest {
            [] => false,
            [first, ..] => first.token.kind() == word.kind(),
        }
    }

    /// Whether the sign stands at the front.
    pub fn at_sign(&self, sign: Sign) -> bool
        ensures { result ≡ starts kind (sign_kind sign ∷ []) self.now.rest.now }
    {
        match self.rest {
            [] => false,
            [first, ..] => first.token.kind() == sign.kind(),
        }
    }

    /// Whether one of the words stands at the front.
    pub fn at_one_of(&self, words: &[Word]) -> bool
        ensures { result ≡ starts kind (kinds_of words.now) self.now.rest.now }
    {
        match self.rest {
            [] => false,
            [first, ..] => is_word_of(first.token.kind(), words),
        }
    }

    /// Whether one of the signs stands at the front.
    pub fn at_one_sign_of(&self, signs: &[Sign]) -> bool
        ensures { result ≡ starts kind (map sign_kind signs.now) self.now.rest.now }
    {
        match self.rest {
            [] => false,
            [first, ..] => is_sign_of(first.token.kind(), signs),
        }
    }

    /// Whether one of the words stands at the front, and the other word after it.
    pub fn at_two(&self, words: &[Word], second: Word) -> bool
        ensures { result ≡ starts_two kind (kinds_of words.now) (word_kind second ∷ []) self.now.rest.now }
    {
        match self.rest {
            [] => false,
            [_] => false,
            [first, next, ..] => {
                is_word_of(first.token.kind(), words) && next.token.kind() == second.kind()
            }
        }
    }

    /// Whether a name stands at the front.
    pub fn at_name(&self) -> bool
        ensures { result ≡ starts kind name_kinds self.now.rest.now }
    {
        match self.rest {
            [] => false,
            [first, ..] => is_name(&first.token),
        }
    }

    /// Whether a number stands at the front.
    pub fn at_number(&self) -> bool
        ensures { result ≡ starts kind (number_kind ∷ []) self.now.rest.now }
    {
        match self.rest {
            [] => false,
            [first, ..] => first.token.kind() == NUMBER_KIND,
        }
    }

    /// Whether a text stands at the front.
    pub fn at_text(&self) -> bool
        ensures { result ≡ starts kind (text_kind ∷ []) self.now.rest.now }
    {
        match self.rest {
            [] => false,
            [first, ..] => first.token.kind() == TEXT_KIND,
        }
    }

    /// Takes the word, and gives its place; `Syntax` where another token or none stands there.
    pub fn word(&mut self, word: Word) -> Result<Place, Halt>
        ensures { Takes (one kind (word_test word) self.old.rest.now) result self.new.rest.now }
    {
        match self.rest {
            [] => Err(Halt::Syntax(0)),
            [first, rest @ ..] => {
                if first.token.kind() != word.kind() {
                    return Err(Halt::Syntax(self.rest.len()));
                }
                let place = first.place;
                self.rest = rest;
                Ok(place)
            }
        }
    }

    /// Takes END and the word after it, which end a statement; `Syntax` where another token or none stands at one of the two.
    #[tactic(auto, unfolding(crate::specs::Ended::two))]
    pub fn end_of(&mut self, word: Word) -> Result<(), Halt>
        ensures { Takes (ended word self.old.rest.now) result self.new.rest.now }
    {
        self.word(Word::End)?;
        self.word(word)?;
        Ok(())
    }

    /// Takes one of the words, and gives its place; `Syntax` where another token or none stands there.
    pub fn one_of(&mut self, words: &[Word]) -> Result<Place, Halt>
        ensures { Takes (one kind (among words.now) self.old.rest.now) result self.new.rest.now }
    {
        match self.rest {
            [] => Err(Halt::Syntax(0)),
            [first, rest @ ..] => {
                if !is_word_of(first.token.kind(), words) {
                    return Err(Halt::Syntax(self.rest.len()));
                }
                let place = first.place;
                self.rest = rest;
                Ok(place)
            }
        }
    }

    /// Takes the sign, and gives its place; `Syntax` where another token or none stands there.
    pub fn sign(&mut self, sign: Sign) -> Result<Place, Halt>
        ensures { Takes (one kind (sign_test sign) self.old.rest.now) result self.new.rest.now }
    {
        match self.rest {
            [] => Err(Halt::Syntax(0)),
            [first, rest @ ..] => {
                if first.token.kind() != sign.kind() {
                    return Err(Halt::Syntax(self.rest.len()));
                }
                let place = first.place;
                self.rest = rest;
                Ok(place)
            }
        }
    }

    /// Takes a name, or a word that is not reserved; `Syntax` where another token or none stands there.
    pub fn name(&mut self, alloc: Global) -> Result<Identifier, Halt>
        ensures { Takes (one kind name_test self.old.rest.now) result self.new.rest.now }
    {
        match self.rest {
            [] => Err(Halt::Syntax(0)),
            [first, rest @ ..] => {
                if !is_name(&first.token) {
                    return Err(Halt::Syntax(self.rest.len()));
                }
                let place = first.place;
                let name = spelled_name(alloc, &first.token)?;
                self.rest = rest;
                Ok(Identifier { place, name })
            }
        }
    }

    /// Takes a number, and gives its place and value; `Syntax` where another token or none stands there.
    pub fn number(&mut self) -> Result<(Place, Dec), Halt>
        ensures { TakesAs (λ x. record { place = x.0; value = x.1 }) (one kind number_test self.old.rest.now) result self.new.rest.now }
    {
        match self.rest {
            [
                Placed {
                    token: Token::Number(number),
                    place,
                },
                rest @ ..,
            ] => {
                let read = (*place, *number);
                self.rest = rest;
                Ok(read)
            }
            _ => Err(Halt::Syntax(self.rest.len())),
        }
    }

    /// Takes a text, and gives its place and characters; `Syntax` where another token or none stands there.
    pub fn text(&mut self, alloc: Global) -> Result<(Place, Text), Halt>
        ensures { TakesAs (λ x. record { place = x.0; value = x.1 }) (one kind text_test self.old.rest.now) result self.new.rest.now }
    {
        match self.rest {
            [
                Placed {
                    token: Token::Text(text),
                    place,
                },
                rest @ ..,
            ] => {
                let read = (*place, text.copy(alloc)?);
                self.rest = rest;
                Ok(read)
            }
            _ => Err(Halt::Syntax(self.rest.len())),
        }
    }

    /// Takes a word that opens a level, and gives its place and the number of levels below it; `Deep` at the
    /// word where no level is left, `Syntax` where another token or none stands there.
    #[tactic(auto, using(psm_tree::proofs::Reading::opening_none, psm_tree::proofs::Reading::opening_some))]
    pub fn open(&mut self, word: Word, levels: u32) -> Result<(Place, u32), Halt>
        ensures taken { Takes (opening levels (word_test word) self.old.rest.now) result self.new.rest.now }
        ensures below { IfOk result (λ o. o.1 < levels) }
    {
        let opening = self.rest.len();
        let place = self.word(word)?;
        if levels == 0 {
            return Err(Halt::Deep(opening));
        }
        Ok((place, levels - 1))
    }

    /// Takes a sign that opens a level, as `open` does a word.
    #[tactic(auto, using(psm_tree::proofs::Reading::opening_none, psm_tree::proofs::Reading::opening_some))]
    pub fn open_sign(&mut self, sign: Sign, levels: u32) -> Result<(Place, u32), Halt>
        ensures taken { Takes (opening levels (sign_test sign) self.old.rest.now) result self.new.rest.now }
        ensures below { IfOk result (λ o. o.1 < levels) }
    {
        let opening = self.rest.len();
        let place = self.sign(sign)?;
        if levels == 0 {
            return Err(Halt::Deep(opening));
        }
        Ok((place, levels - 1))
    }
}
