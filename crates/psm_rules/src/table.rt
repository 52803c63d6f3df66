//! The rules of tables.
ghost use Rattle.std.specs.Prelude.{◌≡◌, slice_get};
ghost use Rattle.psm_rules.specs.FileFaults.{column_names, too_many};
ghost use Rattle.psm_rules.specs.StatementFaults.{several};

use crate::fault::{Fault, breaks};
use crate::rule::Rule;
use psm_list::OneOrMore;
use psm_tree::Element;

/// The fault of a table with too many columns: it stands at column 101, which is one too many.
pub fn too_many(elements: &OneOrMore<Element>) -> Option<Fault>
    ensures { result ≡ too_many (slice_get (column_names (several elements.now)) 100) }
{
    match &elements.first {
        Element::Column { .. } => beyond(99, elements.rest.items()),
        Element::Rule(_) => beyond(100, elements.rest.items()),
    }
}

// The column after n.
fn beyond(columns: u8, elements: &[Element]) -> Option<Fault>
    ensures { result ≡ too_many (slice_get (column_names elements.now) columns) }
{
    let mut left = columns;
    for element in elements {
        if let Element::Column { name, .. } = element {
            if left == 0 {
                return breaks(Rule::TooManyColumns, name.place);
            }
            left -= 1;
        }
    }
    None
}
