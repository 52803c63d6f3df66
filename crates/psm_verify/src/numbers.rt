//! Numbers that name something, and lists of them.
ghost use Rattle.std.specs.Prelude.{◌≡◌};
ghost use Rattle.psm_code.specs.Rules as rules;
ghost use Rattle.psm_code.specs.TableRules as tables;

/// Whether something of that number is there.
pub(crate) fn is_there<T>(items: &[T], number: u32) -> bool
    ensures { result ≡ rules.is_there items.now number }
{
    (number as usize) < items.len()
}

pub(crate) fn are_there<T>(items: &[T], numbers: &[u32]) -> bool
    ensures { result ≡ tables.are_there items.now numbers.now }
{
    numbers.iter().all(|number| is_there(items, *number))
}
