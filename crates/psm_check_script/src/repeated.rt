//! Columns that are listed twice.
ghost use Rattle.std.specs.Prelude.{◌≡◌, ◌||◌, is_some, IfOk};
ghost use Rattle.psm_rules.specs.declared.rule.Rule.TheVariants as rules_of;
ghost use Rattle.psm_rules.specs.Faults.{breaks_if, earlier};
ghost use Rattle.psm_rules.specs.StatementFaults.{repeated, several};
ghost use Rattle.psm_scope.specs.Scopes.{Spelling, is_spelled};
ghost use Rattle.psm_scope.specs.Lookup.{named};

use psm_rules::{Fault, Rule, breaks_if, earlier};
use psm_scope::Names as Declared;
use psm_tree::{Identifier, Names};
use std::alloc::{AllocError, Global};

/// The first column that stands before in a list. Each is looked for in a map of those before.
pub(crate) fn repeated_fault(alloc: Global, names: &Names) -> Result<Option<Fault>, AllocError>
    ensures { IfOk result (λ f. f ≡ repeated rules_of.ColumnRepeated (several names.now)) }
{
    let mut seen = Declared::new(alloc);
    let mut fault = noted(&mut seen, None, &names.first)?;
    for name in names.rest.items() {
        fault = noted(&mut seen, fault, name)?;
    }
    Ok(fault)
}

// Notes a name, and gives the first fault so far with that of the name.
fn noted<'a>(
    seen: &mut Declared<'a, bool>,
    fault: Option<Fault>,
    name: &'a Identifier,
) -> Result<Option<Fault>, AllocError>
    ensures fault { IfOk result (λ f. f ≡ earlier fault (breaks_if (is_some (named name.now.name seen.old)) rules_of.ColumnRepeated name.now.place)) }
    ensures seen { IfOk result (λ _. (n : Spelling) → is_some (named n seen.new) ≡ (is_spelled n name.now.name || is_some (named n seen.old))) }
{
    let added = seen.add(&name.name, true)?;
    let own = breaks_if(!added, Rule::ColumnRepeated, name.place);
    Ok(earlier(fault, own))
}
