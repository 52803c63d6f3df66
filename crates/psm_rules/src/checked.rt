//! What is found in the parts of an expression.
ghost use Rattle.std.specs.Prelude.{◌≡◌};
ghost use Rattle.std.specs.List.{list_all};
ghost use Rattle.psm_rules.specs.Checked.{all_of, as_condition, as_value, broken, faults_in, is_shaped, combined, of_family, shape_of, well_typed};

use crate::fault::{Fault, breaks, earlier};
use crate::rule::Rule;
use crate::shape::{Family, Shape};
use crate::shapes::is_of;
use psm_token::Place;

/// What is found in a part of an expression: its place, the first fault in it, and its shape, which a part that has a fault in
/// it, or that is declared with a type at fault, doesn't have.
#[derive(Clone, Copy, Debug)]
pub struct Checked {
    pub place: Place,
    pub fault: Option<Fault>,
    pub shape: Option<Shape>,
}

/// A part without a fault.
pub fn well_typed(place: Place, shape: Shape) -> Checked
    ensures { result ≡ well_typed place shape }
{
    Checked {
        place,
        fault: None,
        shape: Some(shape),
    }
}

/// A part that breaks a rule itself.
pub fn broken(rule: Rule, place: Place) -> Checked
    ensures { result ≡ broken rule place }
{
    Checked {
        place,
        fault: breaks(rule, place),
        shape: None,
    }
}

/// What is found in a part in the place of a value, where a condition may not stand.
pub fn as_value(f: Checked) -> Checked
    ensures { result ≡ as_value f }
{
    match f.shape {
        None => f,
        Some(Shape::Value(t)) => well_typed(f.place, Shape::Value(t)),
        Some(Shape::Untyped) => well_typed(f.place, Shape::Untyped),
        Some(Shape::Condition) => broken(Rule::Misplaced, f.place),
    }
}

/// What is found in a part in the place of a condition, where a value may not stand.
pub fn as_condition(f: Checked) -> Checked
    ensures { result ≡ as_condition f }
{
    match f.shape {
        None => f,
        Some(Shape::Value(_)) | Some(Shape::Untyped) => broken(Rule::Misplaced, f.place),
        Some(Shape::Condition) => well_typed(f.place, Shape::Condition),
    }
}

/// What is found in a value that has to be of a family.
pub fn of_family(family: Family, f: Checked) -> Checked
    ensures { result ≡ of_family family f }
{
    match f.shape {
        None => f,
        Some(shape) => {
            if is_of(family, shape) {
                well_typed(f.place, shape)
            } else {
                broken(Rule::FamiliesMixed, f.place)
            }
        }
    }
}

/// The shape of a part that has one.
pub fn shape_of(f: Checked) -> Shape
    ensures { result ≡ shape_of f }
{
    match f.shape {
        None => Shape::Untyped,
        Some(shape) => shape,
    }
}

/// The first of the faults that are found in some parts.
pub fn faults_in(parts: &[Checked]) -> Option<Fault>
    ensures { result ≡ faults_in parts.now }
{
    let mut first = None;
    for part in parts {
        first = earlier(first, part.fault);
    }
    first
}

/// Whether each part has a shape.
pub fn are_shaped(parts: &[Checked]) -> bool
    ensures { result ≡ list_all is_shaped parts.now }
{
    parts.iter().all(|f| f.shape.is_some())
}

/// Whether all parts are values of a family.
pub fn all_of(family: Family, parts: &[Checked]) -> bool
    ensures { result ≡ all_of family parts.now }
{
    parts.iter().all(|f| is_of(family, shape_of(*f)))
}

/// A part that is made of others, and what it is where each of them has a shape.
pub fn combined(place: Place, parts: &[Checked], whole: Checked) -> Checked
    ensures { result ≡ combined place parts.now whole }
{
    if are_shaped(parts) {
        whole
    } else {
        Checked {
            place,
            fault: faults_in(parts),
            shape: None,
        }
    }
}
