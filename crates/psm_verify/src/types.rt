//! Whether a type is one.
ghost use Rattle.std.specs.Prelude.{◌≡◌};
ghost use Rattle.psm_exprcode.specs.WellFormed.{is_type as is_type_within};

use psm_value::SqlType;

/// Whether the digits, decimals and length of a type are within bounds.
#[tactic(auto, using(psm_exprcode::proofs::Types::within_is))]
pub(crate) fn is_type(to: SqlType) -> bool
    ensures { result ≡ is_type_within to }
{
    to.is_within_bounds()
}
