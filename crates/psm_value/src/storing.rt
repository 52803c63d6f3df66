//! A value as a type stores it (ISO/IEC 9075:1992, 9.1 and 9.2).
ghost use Rattle.std.specs.Prelude.{◌≡◌, ◌≤◌, ◌↔◌, ℕ, Bool, IsTrue, Ok, length, codes, if◌then◌else◌};
ghost use Rattle.psm_value.specs.declared.datum.Datum.{Datum};
ghost use Rattle.psm_value.specs.declared.datum.Datum.TheVariants as data_of;
ghost use Rattle.psm_value.specs.declared.sqltype.SqlType.{SqlType};
ghost use Rattle.psm_value.specs.Answer.{Gives};
ghost use Rattle.psm_value.specs.Fetched.{fetched, fetched_text};
ghost use Rattle.psm_value.specs.Cast.{cast_of};
ghost use Rattle.psm_value.specs.SqlType.{IsType, IsOfFamily};
ghost use Rattle.psm_value.specs.Stored.{has_length as has_length_of, is_in_range as is_in_range_of, is_stored as is_as_stored, scale_of, stored, stored_number, stored_text};

use crate::datum::Datum;
use crate::fault::ValueFault;
use crate::sqltype::SqlType;
use psm_num::Dec;
use psm_sqlstate::SqlState;
use psm_text::Text;
use std::alloc::Global;

/// The value as it is stored in the type (ISO/IEC 9075:1992, 9.2). Null stays null. A number is cut toward
/// zero to the type's scale, and is 22003 where it isn't in the type's range then. A text loses what is
/// too long, and is 22001 where a lost character isn't a blank; CHAR is filled with blanks. A number or a
/// null takes no memory.
pub fn store_into(alloc: Global, to: SqlType, value: &Datum) -> Result<Datum, ValueFault>
    requires { IsType to }
    ensures { Gives (stored to value.now) result }
{
    match value {
        Datum::Null => Ok(Datum::Null),
        Datum::Num(number) => Ok(store_number(to, *number)?),
        Datum::Text(text) => store_text(alloc, to, text),
    }
}

/// The value as it is fetched into the type (ISO/IEC 9075:1992, 9.1): as [`store_into`], but a long text is
/// cut without a condition. The flag says that a character was lost, blank or not.
pub fn fetch_into(alloc: Global, to: SqlType, value: &Datum) -> Result<(Datum, bool), ValueFault>
    requires { IsType to }
    ensures { Gives (fetched to value.now) result }
{
    match value {
        Datum::Null => Ok((Datum::Null, false)),
        Datum::Num(number) => Ok((store_number(to, *number)?, false)),
        Datum::Text(text) => fetch_text(alloc, to, text),
    }
}

/// Whether a value is as the type stores it: null, a number of exactly the type's scale and in its range, or a
/// text of exactly `n` characters in CHAR(n) and of at most `n` in VARCHAR(n). Takes no memory.
pub fn is_stored(to: SqlType, value: &Datum) -> bool
    requires { IsType to }
    ensures { result ≡ is_as_stored to value.now }
{
    match value {
        Datum::Null => true,
        Datum::Num(number) => number.scale() == scale(to) && is_in_range(to, number.coef()),
        Datum::Text(text) => has_length(to, text.len()),
    }
}

/// What is stored is null or of the type's family, is as the type stores it, and stays as it is when it is
/// stored there again. What is fetched or cast is as the type stores it too. A value is as its type stores it
/// exactly where storing leaves it as it is.
pub fn storing_is_stable()
    ensures family { (to : SqlType) (d e : Datum) → stored to d ≡ Ok e → IsOfFamily to e }
    ensures as_stored { (to : SqlType) (d e : Datum) → stored to d ≡ Ok e → IsTrue (is_as_stored to e) }
    ensures again { (to : SqlType) (d e : Datum) → stored to d ≡ Ok e → stored to e ≡ Ok e }
    ensures exactly { (to : SqlType) (d : Datum) → IsTrue (is_as_stored to d) ↔ (stored to d ≡ Ok d) }
    ensures fetched { (to : SqlType) (d e : Datum) (lost : Bool) → fetched to d ≡ Ok (e, lost) → IsTrue (is_as_stored to e) }
    ensures cast { (to : SqlType) (d e : Datum) → cast_of to d ≡ Ok e → IsTrue (is_as_stored to e) }
{}

pub(crate) fn store_number(to: SqlType, number: Dec) -> Result<Datum, SqlState>
    requires { IsType to }
    ensures { result ≡ stored_number to number }
{
    match number.rescale(scale(to)) {
        Ok(cut) => in_range(to, cut),
        Err(_) => Err(SqlState::OUT_OF_RANGE),
    }
}

// A number at the type's scale, if the type holds it.
fn in_range(to: SqlType, cut: Dec) -> Result<Datum, SqlState>
    requires { IsType to }
    ensures { result ≡ (if is_in_range_of to cut.coef then Ok (data_of.Num cut) else Err (codes "22003")) }
{
    if is_in_range(to, cut.coef()) {
        Ok(Datum::Num(cut))
    } else {
        Err(SqlState::OUT_OF_RANGE)
    }
}

pub(crate) fn store_text(alloc: Global, to: SqlType, text: &Text) -> Result<Datum, ValueFault>
    requires { IsType to }
    ensures { Gives (stored_text to text.now) result }
{
    match to {
        SqlType::Char { n } => Ok(Datum::Text(text.fit(alloc, n as u32, true)?)),
        SqlType::VarChar { n } => Ok(Datum::Text(text.fit(alloc, n as u32, false)?)),
        _ => Err(ValueFault::Condition(SqlState::RIGHT_TRUNCATION)),
    }
}

fn fetch_text(alloc: Global, to: SqlType, text: &Text) -> Result<(Datum, bool), ValueFault>
    requires { IsType to }
    ensures { Gives (fetched_text to text.now) result }
{
    let (cut, lost) = match to {
        SqlType::Char { n } => text.cut(alloc, n as u32, true)?,
        SqlType::VarChar { n } => text.cut(alloc, n as u32, false)?,
        _ => return Err(ValueFault::Condition(SqlState::RIGHT_TRUNCATION)),
    };
    Ok((Datum::Text(cut), lost))
}

// Whether texts of n characters are as the type stores them.
fn has_length(to: SqlType, count: u32) -> bool
    ensures { result ≡ has_length_of to count }
{
    match to {
        SqlType::Char { n } => count == u32::from(n),
        SqlType::VarChar { n } => count <= u32::from(n),
        SqlType::SmallInt | SqlType::Integer | SqlType::Numeric { .. } => false,
    }
}

// How many digits after the point the type keeps.
fn scale(to: SqlType) -> u8
    requires { IsType to }
    ensures value { result ≡ scale_of to }
    ensures bound { result ≤ 18 }
{
    match to {
        SqlType::Numeric { p: _, s } => s,
        _ => 0,
    }
}

// Whether the type holds a number of that coefficient at its scale.
#[tactic(auto, using(crate::proofs::Ranges::power_bound))]
fn is_in_range(to: SqlType, coef: i64) -> bool
    requires { IsType to }
    ensures { result ≡ is_in_range_of to coef }
{
    match to {
        SqlType::SmallInt => -32_768 <= coef && coef <= 32_767,
        SqlType::Integer => -2_147_483_648 <= coef && coef <= 2_147_483_647,
        SqlType::Numeric { p, s: _ } => coef.unsigned_abs() < 10_u64.pow(p as u32),
        _ => false,
    }
}
