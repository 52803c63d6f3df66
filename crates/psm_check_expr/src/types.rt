//! Declared types.
ghost use Rattle.std.specs.Prelude.{◌≡◌, ℕ};
ghost use Rattle.psm_rules.specs.Types.{decimals, digits_within, length_in, type_of, whole};
ghost use Rattle.psm_rules.specs.ExprFaults.{type_fault};

use psm_num::Dec;
use psm_rules::{Fault, Rule, breaks_if};
use psm_tree::{DataType, TypeForm};
use psm_value::SqlType;

/// The type that is declared, where it is within bounds (ISO/IEC 9075:1992, 6.1).
pub fn type_of(t: &DataType) -> Option<SqlType>
    ensures { result ≡ type_of t.now }
{
    match &t.form {
        TypeForm::SmallInt => Some(SqlType::SmallInt),
        TypeForm::Integer => Some(SqlType::Integer),
        TypeForm::Numeric(None) => Some(SqlType::Numeric { p: 18, s: 0 }),
        TypeForm::Numeric(Some(p)) => digits_within(p.precision, p.scale),
        TypeForm::Char(None) => Some(SqlType::Char { n: 1 }),
        TypeForm::Char(Some(n)) => {
            let n = length_in(*n)?;
            Some(SqlType::Char { n })
        }
        TypeForm::VarChar(n) => {
            let n = length_in(*n)?;
            Some(SqlType::VarChar { n })
        }
    }
}

fn whole(n: Dec) -> Option<u64>
    ensures { result ≡ whole n }
{
    if n.scale() == 0 {
        Some(n.coef().unsigned_abs())
    } else {
        None
    }
}

fn length_in(n: Dec) -> Option<u16>
    ensures { result ≡ length_in (whole n) }
{
    match whole(n) {
        None => None,
        Some(n) => {
            if 1 <= n && n <= 4000 {
                Some(n as u16)
            } else {
                None
            }
        }
    }
}

fn decimals(n: Option<Dec>) -> Option<u64>
    ensures { result ≡ decimals n }
{
    match n {
        None => Some(0),
        Some(n) => whole(n),
    }
}

fn digits_within(precision: Dec, scale: Option<Dec>) -> Option<SqlType>
    ensures { result ≡ digits_within (whole precision) (decimals scale) }
{
    let (p, s) = match (whole(precision), decimals(scale)) {
        (Some(p), Some(s)) => (p, s),
        _ => return None,
    };
    if 1 <= p && p <= 18 && s <= p {
        Some(SqlType::Numeric {
            p: p as u8,
            s: s as u8,
        })
    } else {
        None
    }
}

/// The fault of a declared type that isn't within bounds, which so isn't known.
pub fn type_fault(t: &DataType, known: Option<SqlType>) -> Option<Fault>
    ensures { result ≡ type_fault t.now known }
{
    breaks_if(known.is_none(), Rule::TypeOutOfRange, t.place)
}
