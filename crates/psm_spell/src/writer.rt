//! Writing tokens.
ghost use Rattle.std.specs.Prelude.{◌≡◌, ◌≤◌, ◌∷◌, ◌++◌, [], length, MatchResult, string_bytes};
ghost use Rattle.std.specs.Str.{chars};
ghost use Rattle.psm_token.specs.declared.token.Token.TheVariants as token;
ghost use Rattle.psm_spell.specs.Written.{written, AreSpellable, IsFileOf};

use crate::gaps::Gaps;
use crate::spaced::SpacedWriter;
use psm_num::Dec;
use psm_text::{Name, Text};
use psm_token::{Sign, Word};
use std::alloc::{AllocError, Global};
use std::marker::Model;

/// A text of tokens that grows, seen as the list of the tokens that were written (ISO/IEC 9075:1992, 5.1 to
/// 5.4). A line feed stands after each semicolon, and a blank after each other token.
#[derive(Drop)]
pub struct Writer {
    writer: SpacedWriter,
}

impl Model for Writer {
    ghost use Rattle.std.specs.Prelude.{◌≡◌, List};
    ghost use Rattle.psm_token.specs.declared.token.Token.{Token};
    ghost use Rattle.psm_spell.specs.declared.gaps.Gaps.TheVariants.{After};

    ghost Value = { List Token };

    ghost view = { λ w. w.writer.tokens };

    ghost invariant = { λ w. w.writer.gaps ≡ After };
}

impl Writer {
    /// A writer that has written nothing.
    pub fn new(alloc: Global) -> Writer
        ensures { result ≡ [] }
    {
        Writer {
            writer: SpacedWriter::new(alloc, Gaps::After),
        }
    }

    /// Writes a word of the language.
    pub fn word(&mut self, word: Word) -> Result<(), AllocError>
        ensures { MatchResult result (λ _. self.new ≡ self.old ++ token.Word word ∷ []) (λ _. self.new ≡ self.old) }
    {
        self.writer.word(word)
    }

    /// Writes a sign.
    pub fn sign(&mut self, sign: Sign) -> Result<(), AllocError>
        ensures { MatchResult result (λ _. self.new ≡ self.old ++ token.Sign sign ∷ []) (λ _. self.new ≡ self.old) }
    {
        self.writer.sign(sign)
    }

    /// Writes a name, which is delimited (ISO/IEC 9075:1992, 5.2).
    pub fn name(&mut self, name: &Name) -> Result<(), AllocError>
        ensures { MatchResult result (λ _. self.new ≡ self.old ++ token.Name name.now ∷ []) (λ _. self.new ≡ self.old) }
    {
        self.writer.name(name)
    }

    /// Writes a number as an exact numeric literal (ISO/IEC 9075:1992, 5.3), which a number below 0 has none of:
    /// a text with such a number is not promised to be read again.
    pub fn number(&mut self, number: Dec) -> Result<(), AllocError>
        ensures { MatchResult result (λ _. self.new ≡ self.old ++ token.Number number ∷ []) (λ _. self.new ≡ self.old) }
    {
        self.writer.number(number)
    }

    /// Writes a text as a character string literal (ISO/IEC 9075:1992, 5.3).
    pub fn text(&mut self, text: &Text) -> Result<(), AllocError>
        ensures { MatchResult result (λ _. self.new ≡ self.old ++ token.Text text.now ∷ []) (λ _. self.new ≡ self.old) }
    {
        self.writer.text(text)
    }

    /// The text of the tokens. Read again, it is these tokens, if each can stand in a file and there are at
    /// most 2,000,000 of them, as many as a file may have.
    pub fn into_text(self) -> String
        ensures text { chars (string_bytes result) ≡ written self }
        ensures file { AreSpellable self → length self ≤ 2000000 → IsFileOf (string_bytes result) self }
    {
        let Writer { writer } = self;
        writer.into_text()
    }
}
