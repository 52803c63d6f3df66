//! The results of CASE and the values of COALESCE.
ghost use Rattle.std.specs.Prelude.{◌≡◌};
ghost use Rattle.psm_scope.specs.Lookup.{or_else};
ghost use Rattle.psm_rules.specs.ExprFaults.{case_of, check_coalesce, differing, result_of, check_results, results_of};
ghost use Rattle.psm_rules.specs.Shapes.{clashes, family_in};

use psm_rules::{
    Checked, Family, Rule, Shape, Typed, are_shaped, breaks, broken, combined, earlier, family_of,
    faults_in, joined, shape_of, well_typed,
};
use psm_token::Place;

/// COALESCE of values.
pub(crate) fn check_coalesce(place: Place, values: &[Checked]) -> Checked
    ensures { result ≡ check_coalesce place values.now }
{
    combined(place, values, check_results(place, values))
}

/// CASE: the rules on the results are asked where no part, a test among them, is at fault.
pub(crate) fn case_of(place: Place, tests: &[Checked], results: &[Checked]) -> Checked
    ensures { result ≡ case_of place tests.now results.now }
{
    if are_shaped(tests) && are_shaped(results) {
        check_results(place, results)
    } else {
        Checked {
            place,
            fault: earlier(faults_in(tests), faults_in(results)),
            shape: None,
        }
    }
}

fn check_results(place: Place, results: &[Checked]) -> Checked
    ensures { result ≡ check_results place results.now }
{
    match differing(results) {
        None => results_of(place, result_of(results)),
        Some(other) => Checked {
            place,
            fault: breaks(Rule::FamiliesMixed, other),
            shape: None,
        },
    }
}

fn results_of(place: Place, typed: Option<Typed>) -> Checked
    ensures { result ≡ results_of place typed }
{
    match typed {
        None => broken(Rule::NullWithoutType, place),
        Some(t) => well_typed(place, Shape::Value(t)),
    }
}

// The first of the results whose family differs from that of the first that isn't NULL.
fn differing(results: &[Checked]) -> Option<Place>
    ensures { result ≡ differing None results.now }
{
    let mut due = None;
    for checked in results {
        let own = family_in(shape_of(*checked));
        if clashes(due, own) {
            return Some(checked.place);
        }
        due = or_else(due, own);
    }
    None
}

// The family of a value, which NULL doesn't have.
fn family_in(shape: Shape) -> Option<Family>
    ensures { result ≡ family_in shape }
{
    match shape {
        Shape::Value(t) => Some(family_of(t.kind)),
        Shape::Untyped | Shape::Condition => None,
    }
}

fn clashes(due: Option<Family>, own: Option<Family>) -> bool
    ensures { result ≡ clashes due own }
{
    match due {
        None => false,
        Some(due) => match own {
            None => false,
            Some(own) => due != own,
        },
    }
}

fn or_else(due: Option<Family>, own: Option<Family>) -> Option<Family>
    ensures { result ≡ or_else due own }
{
    match due {
        Some(due) => Some(due),
        None => own,
    }
}

// The highest kind and the largest scale among those that aren't NULL.
fn result_of(results: &[Checked]) -> Option<Typed>
    ensures { result ≡ result_of None results.now }
{
    let mut so_far = None;
    for checked in results {
        so_far = joined(so_far, shape_of(*checked));
    }
    so_far
}
