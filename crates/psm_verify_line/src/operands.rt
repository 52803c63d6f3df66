//! Letters of operands. They stand with the last operand first.
ghost use Rattle.std.specs.Prelude.{◌≡◌, ◌++◌, replicate, slice_get};
ghost use Rattle.std.specs.Option.{option_copied};
ghost use Rattle.psm_exprcode.specs.Table.{alone, letters_of};
ghost use Rattle.psm_exprcode.specs.WellFormed.{is_known as is_of_known, left_of, same_stack};

use psm_exprcode::{Letter, Letters};

/// Whether the letter stands at that index.
pub fn is_known(letter: Letter, letters: &[Letter], place: usize) -> bool
    ensures { result ≡ is_of_known letter (slice_get letters.now place) }
{
    match letters.get(place) {
        Some(known) => letter == *known,
        None => false,
    }
}

/// What is left of the operands where those letters are taken; none where others stand there.
#[tactic(auto, using(psm_exprcode::proofs::Stripping::left_below_some, psm_exprcode::proofs::Stripping::left_below_none))]
pub fn left(stack: &[Letter], taken: Letters) -> Option<&[Letter]>
    ensures { option_copied result ≡ left_of (letters_of taken) stack.now }
{
    match left_by_many(stack, taken.letter, taken.count) {
        Some(rest) => left_by_one(rest, taken.below),
        None => None,
    }
}

fn left_by_many(stack: &[Letter], letter: Letter, count: u32) -> Option<&[Letter]>
    ensures { option_copied result ≡ left_of (replicate count letter) stack.now }
{
    let mut rest = stack;
    let mut more = count;
    while more > 0 {
        match rest.split_first() {
            Some((last, below)) if *last == letter => rest = below,
            _ => return None,
        }
        more -= 1;
    }
    Some(rest)
}

fn left_by_one(stack: &[Letter], letter: Option<Letter>) -> Option<&[Letter]>
    ensures { option_copied result ≡ left_of (alone letter) stack.now }
{
    match letter {
        None => Some(stack),
        Some(letter) => left_by_many(stack, letter, 1),
    }
}

/// Whether the operands are those below, with the letters that are put on them.
#[tactic(auto, using(psm_exprcode::proofs::Stripping::same_on_some, psm_exprcode::proofs::Stripping::same_on_none))]
pub fn are_stated(put: Letters, below: &[Letter], stated: &[Letter]) -> bool
    ensures { result ≡ same_stack (letters_of put ++ below.now) stated.now }
{
    match left(stated, put) {
        Some(rest) => are_same(below, rest),
        None => false,
    }
}

/// Whether the operands are the same, one for one.
pub fn are_same(stack: &[Letter], other: &[Letter]) -> bool
    ensures { result ≡ same_stack stack.now other.now }
{
    let mut left = stack;
    let mut right = other;
    while let Some((letter, below)) = left.split_first() {
        match right.split_first() {
            Some((other, under)) if *letter == *other => right = under,
            _ => return false,
        }
        left = below;
    }
    right.is_empty()
}
