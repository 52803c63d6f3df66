//! Names of labels and targets.
ghost use Rattle.std.specs.Prelude.{◌≡◌};
ghost use Rattle.std.specs.Option.{option_copied};
ghost use Rattle.psm_rules.specs.BlockFaults.{last_name};
ghost use Rattle.psm_rules.specs.StatementFaults.{label_name};

use psm_text::Name;
use psm_tree::{Label, Target};

/// The name of a label, where there is one.
pub fn label_name(label: &Option<Label>) -> Option<&Name>
    ensures { option_copied result ≡ label_name label.now }
{
    match label {
        None => None,
        Some(label) => Some(&label.start.name),
    }
}

/// The name of a target by itself, without its qualifier.
pub fn last_name(target: &Target) -> &Name
    ensures { result.now ≡ last_name target.now.first target.now.second }
{
    match &target.second {
        None => &target.first.name,
        Some(second) => &second.name,
    }
}
