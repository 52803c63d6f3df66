//! Letters that are taken off a stack, and stacks that are the same.
ghost use Rattle.std.specs.Prelude.{◌≡◌, ◌<◌, ◌++◌, length, replicate, slice_get, option_map, IfSome};
ghost use Rattle.psm_exprcode.specs.Stacks.{stack_at};
ghost use Rattle.psm_exprcode.specs.Table.{alone, letters_of};
ghost use Rattle.psm_exprcode.specs.WellFormed.{is_known as is_of_known, left_of, same_stack};

use crate::op::Letter;
use crate::stacks::Stacks;
use crate::table::Letters;

/// Whether the letter stands at that index.
pub(crate) fn is_known(letter: Letter, letters: &[Letter], index: usize) -> bool
    ensures { result ≡ is_of_known letter (slice_get letters.now index) }
{
    match letters.get(index) {
        Some(known) => letter == *known,
        None => false,
    }
}

/// What is left of a stack where those letters are taken off; none where others stand there.
#[tactic(auto, using(crate::proofs::Stripping::left_below_some, crate::proofs::Stripping::left_below_none))]
pub fn left(stacks: &Stacks, stack: usize, taken: Letters) -> Option<usize>
    requires { stack < length stacks.now }
    ensures letters { option_map (stack_at stacks.now) result ≡ left_of (letters_of taken) (stack_at stacks.now stack) }
    ensures there { IfSome result (λ rest. rest < length stacks.now) }
{
    match left_by_many(stacks, stack, taken.letter, taken.count) {
        Some(rest) => left_by_one(stacks, rest, taken.below),
        None => None,
    }
}

fn left_by_many(stacks: &Stacks, stack: usize, letter: Letter, count: u32) -> Option<usize>
    requires { stack < length stacks.now }
    ensures letters { option_map (stack_at stacks.now) result ≡ left_of (replicate count letter) (stack_at stacks.now stack) }
    ensures there { IfSome result (λ rest. rest < length stacks.now) }
{
    let mut rest = stack;
    let mut more = count;
    while more > 0 {
        match stacks.split(rest) {
            Some((last, below)) if last == letter => rest = below,
            _ => return None,
        }
        more -= 1;
    }
    Some(rest)
}

fn left_by_one(stacks: &Stacks, stack: usize, letter: Option<Letter>) -> Option<usize>
    requires { stack < length stacks.now }
    ensures letters { option_map (stack_at stacks.now) result ≡ left_of (alone letter) (stack_at stacks.now stack) }
    ensures there { IfSome result (λ rest. rest < length stacks.now) }
{
    match letter {
        None => Some(stack),
        Some(letter) => left_by_many(stacks, stack, letter, 1),
    }
}

/// Whether a stack is that below, with the letters that are put on it.
#[tactic(auto, using(crate::proofs::Stripping::same_on_some, crate::proofs::Stripping::same_on_none))]
pub fn are_stated(stacks: &Stacks, put: Letters, below: usize, stated: usize) -> bool
    requires below { below < length stacks.now }
    requires stated { stated < length stacks.now }
    ensures { result ≡ same_stack (letters_of put ++ stack_at stacks.now below) (stack_at stacks.now stated) }
{
    match left(stacks, stated, put) {
        Some(rest) => are_same(stacks, below, rest),
        None => false,
    }
}

// Stacks with one number are the same, so that what is shared isn't looked at.
fn are_same(stacks: &Stacks, stack: usize, other: usize) -> bool
    requires stack { stack < length stacks.now }
    requires other { other < length stacks.now }
    ensures { result ≡ same_stack (stack_at stacks.now stack) (stack_at stacks.now other) }
{
    let mut left = stack;
    let mut right = other;
    while left != right {
        match (stacks.split(left), stacks.split(right)) {
            (Some((last, below)), Some((other, under))) if last == other => {
                left = below;
                right = under;
            }
            (None, None) => return true,
            _ => return false,
        }
    }
    true
}
