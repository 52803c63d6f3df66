//! Constants.
ghost use Rattle.std.specs.Prelude.{◌≡◌};
ghost use Rattle.psm_rules.specs.FileFaults.{signed};

use psm_num::Dec;
use psm_tree::Sign;

/// A number with the sign before it.
pub fn signed(sign: Option<Sign>, number: Dec) -> Dec
    ensures { result ≡ signed sign number }
{
    match sign {
        None | Some(Sign::Plus) => number,
        Some(Sign::Minus) => number.neg(),
    }
}
