//! A stack of letters that changes.
ghost use Rattle.std.specs.Prelude.{◌≡◌, ◌<◌, ◌∷◌, [], ◌++◌, drop, length, slice_get, IfOk};
ghost use Rattle.psm_exprcode.specs.Stacks.{stack_at, Extends};
ghost use Rattle.psm_exprcode.specs.Writing.{letters_now};

use crate::op::Letter;
use crate::stacks::Stacks;
use std::alloc::{AllocError, Global};
use std::marker::Model;

/// Stacks of letters, and the number of the current one. A change makes another stack the current one, and
/// takes time and memory for the letters alone that it puts or takes off, not for those below them.
#[derive(Debug, Drop)]
pub struct LetterStack {
    stacks: Stacks,
    number: usize,
    /// The stack from which a letter was taken last, to be used again where that letter is put again.
    above: usize,
}

impl Model for LetterStack {
    ghost use Rattle.std.specs.Prelude.{◌<◌, length};
    ghost use Rattle.psm_exprcode.specs.Writing.{StackNow};

    ghost Value = { StackNow };

    ghost view = { λ s. record { stacks = s.stacks; number = s.number } };

    ghost invariant = { λ s. (s.number < length s.stacks) × (s.above < length s.stacks) };
}

impl LetterStack {
    /// No letter.
    pub fn new(alloc: Global) -> LetterStack
        ensures { letters_now result ≡ [] }
    {
        let stacks = Stacks::new(alloc);
        let number = stacks.empty();
        LetterStack {
            stacks,
            number,
            above: number,
        }
    }

    /// The number of the current stack.
    pub fn number(&self) -> usize
        ensures number { result ≡ self.now.number }
        ensures there { result < length self.now.stacks }
    {
        let _ = &self.stacks;
        self.number
    }

    /// How many letters there are. Takes the time of all of them.
    pub fn height(&self) -> usize
        ensures { result ≡ length (letters_now self.now) }
    {
        self.stacks.depth(self.number)
    }

    /// The letter that n others stand on. Takes the time of those.
    pub fn letter_below(&self, others: usize) -> Option<Letter>
        ensures { result ≡ slice_get (letters_now self.now) others }
    {
        let (number, _) = self.stacks.dropped(self.number, others);
        match self.stacks.split(number) {
            Some((letter, _)) => Some(letter),
            None => None,
        }
    }

    /// Takes n letters off, or all that there are.
    pub fn take(&mut self, count: usize)
        ensures stacks { self.new.stacks ≡ self.old.stacks }
        ensures letters { letters_now self.new ≡ drop count (letters_now self.old) }
    {
        let (number, above) = self.stacks.dropped(self.number, count);
        self.number = number;
        self.above = above;
    }

    /// Puts a letter on the others.
    pub fn put(&mut self, letter: Letter) -> Result<(), AllocError>
        ensures extends { Extends self.old.stacks self.new.stacks }
        ensures letters { IfOk result (λ _. letters_now self.new ≡ letter ∷ letters_now self.old) }
    {
        self.number = self.stacks.put_like(letter, self.number, self.above)?;
        Ok(())
    }

    /// Puts letters on the others, the first one last.
    #[tactic(auto, using(crate::proofs::Changing::put_step, crate::proofs::Changing::extends_self, crate::proofs::Changing::extends_more))]
    pub fn put_all(&mut self, letters: &[Letter]) -> Result<(), AllocError>
        ensures extends { Extends self.old.stacks self.new.stacks }
        ensures letters { IfOk result (λ _. letters_now self.new ≡ letters.now ++ letters_now self.old) }
    {
        let mut left = letters.len();
        while left > 0 {
            left -= 1;
            self.put(letters[left])?;
        }
        Ok(())
    }

    /// Gives the stacks back.
    pub fn into_stacks(self) -> Stacks
        ensures { result ≡ self.stacks }
    {
        let LetterStack { stacks, .. } = self;
        stacks
    }
}
