//! What stands at indexes of what is known.
ghost use Rattle.std.specs.Prelude.{◌≡◌, slice_get};
ghost use Rattle.psm_exprgen.specs.Written.{letter_at as letter_there, letters_at as letters_there, number_at as number_there};

use psm_exprcode::Letter;
use psm_list::List;

/// The letter at an index; that of a number where there is none.
pub fn letter_at(letters: &[Letter], index: usize) -> Letter
    ensures { result ≡ letter_there letters.now index }
{
    match letters.get(index) {
        Some(letter) => *letter,
        None => Letter::N,
    }
}

/// The letters at an index; none where there are none.
pub fn letters_at(lists: &[List<Letter>], index: u32) -> &[Letter]
    ensures { result.now ≡ letters_there lists.now index }
{
    match lists.get(index as usize) {
        Some(letters) => letters.items(),
        None => &[],
    }
}

/// The number at an index, or 0.
pub fn number_at(numbers: &[u32], index: u32) -> u32
    ensures { result ≡ number_there (slice_get numbers.now index) }
{
    match numbers.get(index as usize) {
        Some(number) => *number,
        None => 0,
    }
}
