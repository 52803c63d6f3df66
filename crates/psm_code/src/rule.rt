//! The rules of code.

/// A rule that code may break. They stand in the order in which they count where one line breaks several.
#[derive(Clone, Copy, Debug, PartialEq, Eq)]
pub enum CodeRule {
    /// A number names something that isn't there, or is out of its bounds.
    Range,
    /// A line that is named isn't there, or the run would go on after the last one.
    Target,
    /// The operands aren't those that are stated.
    Stack,
    /// A line stands in another context than the run comes from.
    Context,
    /// The line after a statement isn't one at which the run can go on.
    Resume,
    /// A jump back leads to a line that uses no turn.
    Turn,
    /// The instruction can't stand there.
    Place,
    /// The definition of a table, a routine or a plan isn't valid.
    Definition,
}
