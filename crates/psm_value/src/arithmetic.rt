//! Arithmetic on values (ISO/IEC 9075:1992, 6.12). Null comes first: a null side gives null, and no
//! condition is asked then. A text counts as null; none evaluates to an operator in a checked module.
ghost use Rattle.std.specs.Prelude.{◌≡◌};
ghost use Rattle.psm_value.specs.Arithmetic.{as_datum, numbers_of, sum_of, difference_of, product_of, quotient_of, negated_of};

use crate::datum::Datum;
use psm_num::{Dec, NumFault};
use psm_sqlstate::SqlState;

/// The sum. More than 18 digits are 22003.
pub fn add(a: &Datum, b: &Datum) -> Result<Datum, SqlState>
    ensures { result ≡ sum_of a.now b.now }
{
    match numbers(a, b) {
        Some((a, b)) => of_number(a.add(b)),
        None => Ok(Datum::Null),
    }
}

/// The difference. More than 18 digits are 22003.
pub fn sub(a: &Datum, b: &Datum) -> Result<Datum, SqlState>
    ensures { result ≡ difference_of a.now b.now }
{
    match numbers(a, b) {
        Some((a, b)) => of_number(a.sub(b)),
        None => Ok(Datum::Null),
    }
}

/// The product. More than 18 digits, or a scale above 18, are 22003.
pub fn mul(a: &Datum, b: &Datum) -> Result<Datum, SqlState>
    ensures { result ≡ product_of a.now b.now }
{
    match numbers(a, b) {
        Some((a, b)) => of_number(a.mul(b)),
        None => Ok(Datum::Null),
    }
}

/// The quotient, cut toward zero at the larger scale. A zero divisor is 22012, and then more than 18
/// digits are 22003.
pub fn div(a: &Datum, b: &Datum) -> Result<Datum, SqlState>
    ensures { result ≡ quotient_of a.now b.now }
{
    match numbers(a, b) {
        Some((a, b)) => of_number(a.div(b)),
        None => Ok(Datum::Null),
    }
}

/// The number with its other sign.
pub fn neg(a: &Datum) -> Datum
    ensures { result ≡ negated_of a.now }
{
    match a {
        Datum::Num(n) => Datum::Num(n.neg()),
        _ => Datum::Null,
    }
}

// The two numbers, if both are.
fn numbers(a: &Datum, b: &Datum) -> Option<(Dec, Dec)>
    ensures { result ≡ numbers_of a.now b.now }
{
    match (a, b) {
        (Datum::Num(a), Datum::Num(b)) => Some((*a, *b)),
        _ => None,
    }
}

// A number as a value, or the condition that there is none.
pub(crate) fn of_number(answer: Result<Dec, NumFault>) -> Result<Datum, SqlState>
    ensures { result ≡ as_datum answer }
{
    match answer {
        Ok(number) => Ok(Datum::Num(number)),
        Err(NumFault::Range) => Err(SqlState::OUT_OF_RANGE),
        Err(NumFault::Zero) => Err(SqlState::DIVISION_BY_ZERO),
        Err(NumFault::NotNumber) => Err(SqlState::INVALID_CAST),
    }
}
