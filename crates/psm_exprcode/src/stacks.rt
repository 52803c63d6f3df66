//! Stacks of letters that share what lies below.
ghost use Rattle.std.specs.Prelude.{◌≡◌, ◌<◌, ◌≤◌, [], ◌∷◌, ◌++◌, drop, length, reverse, take, IfOk, IfSome, OnErr, OnOk, MatchOption, IsTrue};
ghost use Rattle.psm_exprcode.specs.Stacks.{first_stacks, stack_at, Extends};

use crate::letters::is_known;
use crate::op::Letter;
use std::alloc::{AllocError, Global};
use std::marker::Model;

/// A letter on a stack.
#[derive(Debug, Drop)]
pub(crate) struct Node {
    letter: Letter,
    /// The number of the stack on which it stands.
    below: usize,
}

/// Stacks of letters, seen as the list of them, in which each has its number. One that is a letter on another
/// takes the memory of that letter alone. The stack of no letter, and those of one, are always there.
#[derive(Debug, Drop)]
pub struct Stacks {
    nodes: Vec<Node>,
}

/// The number of the first stack that a node makes.
const FIRST: usize = 4;

impl Model for Stacks {
    ghost use Rattle.std.specs.Prelude.{List, IsTrue};
    ghost use Rattle.psm_exprcode.specs.declared.op.Letter.{Letter};
    ghost use Rattle.psm_exprcode.specs.Stacks.{first_stacks, stacks_with, are_on_earlier};

    ghost Value = { List (List Letter) };

    ghost view = { λ s. stacks_with first_stacks s.nodes.items };

    ghost invariant = { λ s. IsTrue (are_on_earlier 4 s.nodes.items) };
}

impl Stacks {
    /// The stack of no letter, and those of one.
    pub fn new(alloc: Global) -> Stacks
        ensures { result ≡ first_stacks }
    {
        Stacks {
            nodes: Vec::new(alloc),
        }
    }

    /// The number of the stack of no letter.
    pub fn empty(&self) -> usize
        ensures there { result < length self.now }
        ensures empty { stack_at self.now result ≡ [] }
    {
        let _ = &self.nodes;
        0
    }

    /// The number of the stack of that letter alone.
    pub fn single(&self, letter: Letter) -> usize
        ensures there { result < length self.now }
        ensures single { stack_at self.now result ≡ letter ∷ [] }
    {
        let _ = &self.nodes;
        match letter {
            Letter::N => 1,
            Letter::T => 2,
            Letter::B => 3,
        }
    }

    /// The last letter of a stack, and the number of what lies below.
    pub fn split(&self, number: usize) -> Option<(Letter, usize)>
        requires { number < length self.now }
        ensures parts { MatchOption result (stack_at self.now number ≡ []) (λ r. stack_at self.now number ≡ r.0 ∷ stack_at self.now r.1) }
        ensures earlier { IfSome result (λ r. r.1 < number) }
    {
        match number {
            0 => None,
            1 => Some((Letter::N, 0)),
            2 => Some((Letter::T, 0)),
            3 => Some((Letter::B, 0)),
            _ => {
                let nodes = self.nodes.as_slice();
                let node = &nodes[number - FIRST];
                Some((node.letter, node.below))
            }
        }
    }

    /// The letters of a stack, with the last one at the end, in place of those that stand in the vector.
    pub fn letters(&self, number: usize, letters: &mut Vec<Letter>) -> Result<(), AllocError>
        requires { number < length self.now }
        ensures { OnOk result (letters.new.items ≡ reverse (stack_at self.now number)) }
    {
        letters.clear();
        let mut rest = number;
        while let Some((letter, below)) = self.split(rest) {
            letters.push(letter)?;
            rest = below;
        }
        letters.reverse();
        Ok(())
    }

    /// The number of the stack of these letters, the last one at the end. Memory is taken for those alone that
    /// it doesn't share with the stack of the other number.
    pub fn number_of(&mut self, letters: &[Letter], like: usize) -> Result<usize, AllocError>
        requires { like < length self.old }
        ensures extends { Extends self.old self.new }
        ensures number { IfOk result (λ n. (n < length self.new) × (stack_at self.new n ≡ reverse letters.now)) }
    {
        let (shared, count) = self.shared(letters, like);
        self.put_all(shared, &letters[count..])
    }

    // The stack of the first n of the letters, with which the other stack begins.
    fn shared(&self, letters: &[Letter], like: usize) -> (usize, usize)
        requires { like < length self.now }
        ensures there { result.0 < length self.now }
        ensures within { result.1 ≤ length letters.now }
        ensures same { stack_at self.now result.0 ≡ reverse (take result.1 letters.now) }
    {
        let mut depth = self.depth(like);
        let mut rest = like;
        let mut shared = like;
        let mut count = depth;
        while let Some((letter, below)) = self.split(rest) {
            depth -= 1;
            rest = below;
            if !is_known(letter, letters, depth) {
                shared = rest;
                count = depth;
            }
        }
        (shared, count)
    }

    /// How many letters a stack has.
    pub(crate) fn depth(&self, number: usize) -> usize
        requires { number < length self.now }
        ensures { result ≡ length (stack_at self.now number) }
    {
        let mut rest = number;
        let mut depth = 0;
        while let Some((_, below)) = self.split(rest) {
            rest = below;
            depth += 1;
        }
        depth
    }

    /// What is left of a stack where n letters are taken off, or all that there are, and the stack of the
    /// last letter that was taken.
    #[tactic(auto, using(crate::proofs::Changing::dropped_step, crate::proofs::Changing::dropped_all))]
    pub(crate) fn dropped(&self, number: usize, count: usize) -> (usize, usize)
        requires { number < length self.now }
        ensures there { result.0 < length self.now }
        ensures above { result.1 < length self.now }
        ensures letters { stack_at self.now result.0 ≡ drop count (stack_at self.now number) }
    {
        let mut rest = number;
        let mut above = number;
        let mut more = count;
        while more > 0 {
            match self.split(rest) {
                Some((_, below)) => {
                    above = rest;
                    rest = below;
                }
                None => return (rest, above),
            }
            more -= 1;
        }
        (rest, above)
    }

    /// The number of the stack of that letter on the one of the number `below`. Where the stack of the number
    /// `like` is that one, no memory is taken.
    pub fn put_like(
        &mut self,
        letter: Letter,
        below: usize,
        like: usize,
    ) -> Result<usize, AllocError>
        requires below { below < length self.old }
        requires like { like < length self.old }
        ensures extends { Extends self.old self.new }
        ensures number { IfOk result (λ n. (n < length self.new) × (stack_at self.new n ≡ letter ∷ stack_at self.old below)) }
    {
        if self.is_on(letter, below, like) {
            Ok(like)
        } else {
            self.put(letter, below)
        }
    }

    fn is_on(&self, letter: Letter, below: usize, number: usize) -> bool
        requires { number < length self.now }
        ensures { IsTrue result → stack_at self.now number ≡ letter ∷ stack_at self.now below }
    {
        match self.split(number) {
            Some((last, rest)) => last == letter && rest == below,
            None => false,
        }
    }

    // The letters on a stack, one after another.
    fn put_all(&mut self, below: usize, letters: &[Letter]) -> Result<usize, AllocError>
        requires { below < length self.old }
        ensures extends { Extends self.old self.new }
        ensures number { IfOk result (λ n. (n < length self.new) × (stack_at self.new n ≡ reverse letters.now ++ stack_at self.old below)) }
    {
        let mut number = below;
        for letter in letters {
            number = self.put(*letter, number)?;
        }
        Ok(number)
    }

    fn put(&mut self, letter: Letter, below: usize) -> Result<usize, AllocError>
        requires { below < length self.old }
        ensures number { IfOk result (λ n. (n ≡ length self.old) × (self.new ≡ self.old ++ (letter ∷ stack_at self.old below) ∷ [])) }
        ensures err { OnErr result (self.new ≡ self.old) }
    {
        let number = FIRST + self.nodes.as_slice().len();
        self.nodes.push(Node { letter, below })?;
        Ok(number)
    }
}
