//! A text as a column or a variable stores it (ISO/IEC 9075:1992, 9.1 and 9.2).
ghost use Rattle.std.specs.Prelude.{◌≡◌, ◌≤◌, length, take, drop, IfOk};
ghost use Rattle.psm_text.specs.Text.{Gives};
ghost use Rattle.psm_text.specs.Storing.{filled, is_blank as is_blank_text, stored, fetched};

use crate::fault::TextFault;
use crate::text::Text;
use std::alloc::{AllocError, Global};

impl Text {
    /// The text as it is stored in `n` characters (ISO/IEC 9075:1992, 9.2). A longer one loses its excess,
    /// and `Lost` comes exactly where a lost character isn't a blank; a shorter one is filled with blanks
    /// where `pad` is set.
    pub fn fit(&self, alloc: Global, n: u32, pad: bool) -> Result<Text, TextFault>
        requires { n ≤ 4000 }
        ensures { Gives (stored n pad self.now) result }
    {
        let (kept, lost) = split(self.chars(), n as usize);
        if !is_blank(lost) {
            return Err(TextFault::Lost);
        }
        Ok(sized(alloc, kept, n as usize, pad)?)
    }

    /// The text as it is fetched into `n` characters (ISO/IEC 9075:1992, 9.1): as `fit`, but never
    /// refused. The flag says that a character was lost, blank or not.
    pub fn cut(&self, alloc: Global, n: u32, pad: bool) -> Result<(Text, bool), AllocError>
        requires { n ≤ 4000 }
        ensures { IfOk result (λ r. r ≡ fetched n pad self.now) }
    {
        let (kept, lost) = split(self.chars(), n as usize);
        Ok((sized(alloc, kept, n as usize, pad)?, !lost.is_empty()))
    }
}

/// The first `n` characters, and those that follow them.
#[tactic(auto, using(std::proofs::lemmas::List::take_min, std::proofs::lemmas::List::drop_min))]
fn split(characters: &[char], n: usize) -> (&[char], &[char])
    ensures kept { result.0.now ≡ take n characters.now }
    ensures lost { result.1.now ≡ drop n characters.now }
{
    characters.split_at(n.min(characters.len()))
}

fn is_blank(characters: &[char]) -> bool
    ensures { result ≡ is_blank_text characters.now }
{
    characters.iter().all(|c| *c == ' ')
}

/// The characters, filled with blanks up to `n` where `pad` is set.
fn sized(alloc: Global, characters: &[char], n: usize, pad: bool) -> Result<Text, AllocError>
    requires limit { n ≤ 4000 }
    requires within { length characters.now ≤ n }
    ensures { IfOk result (λ t. t ≡ filled n pad characters.now) }
{
    let mut items = Vec::from_slice(alloc, characters)?;
    if pad {
        items.resize(n, ' ')?;
    }
    Ok(Text::from_vec(items))
}
