//! Orders of rows.
ghost use Rattle.std.specs.Prelude.{◌≡◌, ◌||◌, not};
ghost use Rattle.std.specs.List.{list_all};
ghost use Rattle.psm_rules.specs.StatementFaults.{several};

use psm_list::OneOrMore;
use psm_tree::OrderColumn;

/// Whether all columns of an order go upwards, or all go downwards.
#[tactic(auto, using(crate::proofs::OneSuccessor::one_way))]
pub fn is_one_way(columns: &OneOrMore<OrderColumn>) -> bool
    ensures { result ≡ (list_all (λ c. c.descending) (several columns.now) || list_all (λ c. not c.descending) (several columns.now)) }
{
    if columns.first.descending {
        are_descending(columns.rest.items())
    } else {
        are_ascending(columns.rest.items())
    }
}

fn are_descending(columns: &[OrderColumn]) -> bool
    ensures { result ≡ list_all (λ c. c.descending) columns.now }
{
    for c in columns {
        if !c.descending {
            return false;
        }
    }
    true
}

fn are_ascending(columns: &[OrderColumn]) -> bool
    ensures { result ≡ list_all (λ c. not c.descending) columns.now }
{
    for c in columns {
        if c.descending {
            return false;
        }
    }
    true
}
