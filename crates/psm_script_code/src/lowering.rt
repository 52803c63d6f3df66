//! The commands of a script over code.
ghost use Rattle.std.specs.Prelude.{All, IfOk};
ghost use Rattle.psm_check_script.specs.Seen.{commands_seen};
ghost use Rattle.psm_check_script.specs.There.{IsThere};
ghost use Rattle.psm_script_code.specs.Made.{CommandsMade};

use crate::commands::all_lowered;
use crate::known::{known_of_tables, procedures_of};
use psm_check_script::ResolvedScript;
use psm_code::RawCode;
use psm_session::ScriptCode;
use std::alloc::{AllocError, Global};

/// Makes the commands of an accepted script into those that are run over the code, one for one (ISO/IEC 9075-4:1996, call statement, and
/// ISO/IEC 9075:1992, 13.8, 7.9, 14.3 and 14.4). Values and rows are moved. What the commands name has to be there in the code, as it is
/// where the checker has accepted the script over it.
///
/// Out of memory is the one error; so are more routines than fit in 32 bits.
#[tactic(auto, using(crate::proofs::Making::all_made))]
pub fn lower_script(
    alloc: Global,
    code: &RawCode,
    script: ResolvedScript,
) -> Result<ScriptCode, AllocError>
    requires { All (IsThere code.now) (commands_seen script.commands) }
    ensures { IfOk result (λ made. CommandsMade code.now (commands_seen script.commands) made.commands) }
{
    let known = known_of_tables(alloc, code)?;
    let procedures = procedures_of(alloc, code.routines.items())?;
    let ResolvedScript { commands } = script;
    let commands = all_lowered(alloc, &known, procedures.as_slice(), commands)?;
    Ok(ScriptCode { commands })
}
