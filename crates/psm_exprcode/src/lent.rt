//! Lines that are lent with the stacks that they state.
ghost use Rattle.std.specs.Prelude.{◌≡◌, ◌<◌, length, slice_get};
ghost use Rattle.std.specs.List.{All};
ghost use Rattle.std.specs.Option.{option_copied};

use crate::raw::NumberedLine;
use crate::stacks::Stacks;

/// Lines, and the stacks of which each has one.
#[derive(Clone, Copy)]
pub(crate) struct NumberedLines<'a> {
    pub(crate) stacks: &'a Stacks,
    pub(crate) lines: &'a [NumberedLine],
    ghost stated: { All (λ l. l.stack < length stacks.now) lines.now },
}

impl<'a> NumberedLines<'a> {
    ghost use Rattle.std.specs.Prelude.{◌≡◌, ◌<◌, ◌+◌, length, drop, reverse, slice_get, option_map, IfSome};
    ghost use Rattle.psm_exprcode.specs.Lent.{lines_in};
    ghost use Rattle.psm_exprcode.specs.Stacks.{stack_at};

    /// The lines after the one at an index.
    pub(crate) fn after(&self, at: usize) -> NumberedLines<'a>
        requires { at < length self.now.lines.now }
        ensures lines { lines_in result ≡ drop (at + 1) (lines_in self.now) }
        ensures stacks { result.stacks.now ≡ self.now.stacks.now }
    {
        NumberedLines {
            stacks: self.stacks,
            lines: &self.lines[at + 1..],
        }
    }

    /// The number of the stack of the line at an index, if there is one.
    pub(crate) fn stack(&self, at: usize) -> Option<usize>
        ensures there { IfSome result (λ n. n < length self.now.stacks.now) }
        ensures stated { option_map (stack_at self.now.stacks.now) result ≡ option_map (λ l. reverse l.stack) (slice_get (lines_in self.now) at) }
    {
        match line_at(self.lines, at) {
            Some(line) => Some(line.stack),
            None => None,
        }
    }
}

fn line_at(lines: &[NumberedLine], at: usize) -> Option<&NumberedLine>
    ensures { option_copied result ≡ slice_get lines.now at }
{
    lines.get(at)
}
