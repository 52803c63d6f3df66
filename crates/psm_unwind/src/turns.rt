//! Turns.
ghost use Rattle.std.specs.Prelude.{◌≡◌, suc, IfNone, IfSome};

/// The turns that are left when one is used; `None` where none is left.
#[inline(always)]
pub fn spend(turns: u64) -> Option<u64>
    ensures none { IfNone result (turns ≡ 0) }
    ensures some { IfSome result (λ left. turns ≡ suc left) }
{
    if turns == 0 {
        return None;
    }
    Some(turns - 1)
}
