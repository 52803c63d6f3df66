//! What is expected of commands.
ghost use Rattle.std.specs.Prelude.{◌≡◌, ℕ, List, Option, All, IsSome};
ghost use Rattle.psm_files.specs.Expected.{Expected};
ghost use Rattle.psm_files.specs.Given.{as_held};
ghost use Rattle.psm_commands.specs.Command.{Command, files_of};
ghost use Rattle.psm_commands.specs.Contract.{StatusFor};

use psm_build::{files_are_one_thing, files_are_something};
use psm_code_session::{
    scripts_over_code_are_one_thing, scripts_over_well_formed_code_have_one_session,
};
use psm_load::texts_are_one_thing;

/// Where the shelf is known to hold the files that a command reads, a status is expected of it.
pub fn something_is_expected()
    ensures { (held : List ℕ → Option (List ℕ)) (command : Command) → All (λ name. IsSome (held name)) (files_of command) → (expected : Expected) × StatusFor (as_held held) command expected }
{
    files_are_one_thing();
    files_are_something();
    texts_are_one_thing();
    scripts_over_code_are_one_thing();
    scripts_over_well_formed_code_have_one_session();
}
