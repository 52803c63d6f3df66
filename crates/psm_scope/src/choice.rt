//! The choice of the function that a call means.
ghost use Rattle.std.specs.Prelude.{◌≡◌, length, IfSome, List as Seq};
ghost use Rattle.std.specs.List.{list_all};
ghost use Rattle.psm_scope.specs.Choice.{Candidate, chosen, only};
ghost use Rattle.psm_scope.specs.Exact.{is_typed};
ghost use Rattle.psm_scope.specs.Pass.{IsAsLong, Sees, merged, order, order_in};

use crate::fault::ChoiceFault;
use crate::index::Exact;
use crate::kinds::ArgKind;
use crate::signatures::Signatures;
use psm_text::Name;
use std::cmp::Ordering;

/// The best candidate so far: its number, the kinds of its parameters, and whether another one is as good.
#[derive(Clone, Copy)]
struct Best<'a> {
    number: u32,
    kinds: &'a [ArgKind],
    tied: bool,
}

/// The number of the function that a call with arguments of these kinds means (ISO/IEC 9075-4:1996, subject routine
/// determination). A function is a candidate where it has the name and the number of arguments, and each argument's kind goes to
/// the parameter's: upwards in SMALLINT, INTEGER, NUMERIC; upwards in CHAR, VARCHAR; NULL goes to all. For each argument that isn't
/// NULL, from the left, the candidates with the lowest kind of parameter stay. `NoRoutine` comes exactly where there is no candidate,
/// and `Ambiguous` exactly where more than one stays. It takes no memory. Where no argument is NULL, a function with exactly the
/// arguments' kinds is found at once. Else the functions of that name and number of parameters are looked at, 64 at a time: for every
/// 64 of them it takes as many steps as there are arguments.
pub fn choose_routine(
    routines: &Signatures,
    name: &Name,
    kinds: &[ArgKind],
) -> Result<u32, ChoiceFault>
    ensures { result ≡ chosen routines.now name.now kinds.now }
{
    match exact(routines, name, kinds) {
        Some(choice) => choice,
        None => best_routine(routines, name, kinds),
    }
}

// The choice where a function has exactly the arguments' kinds.
fn exact(routines: &Signatures, name: &Name, kinds: &[ArgKind]) -> Option<Result<u32, ChoiceFault>>
    ensures { IfSome result (λ choice. choice ≡ chosen routines.now name.now kinds.now) }
{
    if !are_typed(kinds) {
        return None;
    }
    match routines.exact(name, kinds) {
        None => None,
        Some(functions) => Some(functions.choice()),
    }
}

fn are_typed(kinds: &[ArgKind]) -> bool
    ensures { result ≡ list_all is_typed kinds.now }
{
    kinds.iter().all(|kind| is_typed(*kind))
}

// Whether an argument of a kind has a type.
fn is_typed(kind: ArgKind) -> bool
    ensures { result ≡ is_typed kind }
{
    match kind {
        ArgKind::Null => false,
        ArgKind::SmallInt
        | ArgKind::Integer
        | ArgKind::Numeric
        | ArgKind::Char
        | ArgKind::VarChar => true,
    }
}

// The choice among the functions of that name and number of parameters, block by block.
fn best_routine(routines: &Signatures, name: &Name, kinds: &[ArgKind]) -> Result<u32, ChoiceFault>
    ensures { result ≡ chosen routines.now name.now kinds.now }
{
    let group = match routines.group(name, kinds.len()) {
        None => return Err(ChoiceFault::NoRoutine),
        Some(group) => group,
    };
    let mut best = None;
    for block in group.blocks() {
        if let Some(found) = block.best(kinds) {
            let parameters = routines.kinds(found.number);
            best = Some(better(best, found, parameters, kinds));
        }
    }
    only(best)
}

// The one that stays, where any does.
fn only(best: Option<Best>) -> Result<u32, ChoiceFault>
    ensures { (cs : Seq Candidate) → Sees best.entry cs → result ≡ only cs }
{
    match best {
        None => Err(ChoiceFault::NoRoutine),
        Some(best) => {
            if best.tied {
                Err(ChoiceFault::Ambiguous)
            } else {
                Ok(best.number)
            }
        }
    }
}

// The best of those so far and of those found after them, of which the first has the kinds.
fn better<'a>(
    best: Option<Best<'a>>,
    found: Exact,
    kinds: &'a [ArgKind],
    args: &[ArgKind],
) -> Best<'a>
    requires kinds { length kinds.now ≡ length args.now }
    requires best { IsAsLong (length args.now) best }
    ensures seen { (bs cs : Seq Candidate) → Sees best.entry bs → Sees (Some (record { number = found.number; kinds = kinds.entry; tied = found.tied })) cs → Sees (Some result) (merged 0 args.now bs cs) }
    ensures long { length result.kinds.now ≡ length args.now }
{
    let alone = Best {
        number: found.number,
        kinds,
        tied: found.tied,
    };
    match best {
        None => alone,
        Some(best) => match order(args, kinds, best.kinds) {
            Ordering::Less => alone,
            Ordering::Equal => Best {
                number: best.number,
                kinds: best.kinds,
                tied: true,
            },
            Ordering::Greater => best,
        },
    }
}

// How the parameters of two functions compare: the first argument that isn't NULL and whose parameters differ decides.
fn order(args: &[ArgKind], kinds: &[ArgKind], others: &[ArgKind]) -> Ordering
    requires kinds { length kinds.now ≡ length args.now }
    requires others { length others.now ≡ length args.now }
    ensures { result ≡ order 0 args.now kinds.now others.now }
{
    for (index, arg) in args.iter().enumerate() {
        match order_in(*arg, kinds[index], others[index]) {
            Ordering::Equal => {}
            decided => return decided,
        }
    }
    Ordering::Equal
}

fn order_in(arg: ArgKind, kind: ArgKind, other: ArgKind) -> Ordering
    ensures { result ≡ order_in arg kind other }
{
    match arg {
        ArgKind::Null => Ordering::Equal,
        ArgKind::SmallInt
        | ArgKind::Integer
        | ArgKind::Numeric
        | ArgKind::Char
        | ArgKind::VarChar => kind.rank().cmp(&other.rank()),
    }
}
