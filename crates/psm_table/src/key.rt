ghost use Rattle.std.specs.Prelude.{◌≡◌, ◌++◌, IfOk, OnOk};
ghost use Rattle.psm_table.specs.Key.{key_order, values_at, AreColumnsOf};
ghost use Rattle.psm_table.specs.Parts.{values_of};

use crate::row::{Row, copied};
use psm_value::Datum;
use std::alloc::{AllocError, Global};
use std::cmp::Ordering;
use std::marker::Model;

/// The values of a row in the columns of its primary key, seen as the list of them. A key of one number
/// takes no memory.
#[derive(Debug, Drop)]
pub struct Key {
    parts: Parts,
}

/// The values of a key as it keeps them: one value without memory of its own, or any number in a vector.
#[derive(Debug, Drop)]
pub enum Parts {
    One([Datum; 1]),
    Many(Vec<Datum>),
}

impl Model for Key {
    ghost use Rattle.std.specs.Prelude.{List};
    ghost use Rattle.psm_value.specs.declared.datum.Datum.{Datum};

    ghost Value = { List Datum };

    ghost use Rattle.psm_table.specs.Parts.{values_of};

    ghost view = { λ k. values_of k.parts };
}

impl Key {
    /// The key that is kept as these parts. It takes no memory.
    pub fn of_parts(parts: Parts) -> Key
        ensures { result ≡ values_of parts }
    {
        Key { parts }
    }

    /// What the key is kept as.
    pub fn into_parts(self) -> Parts
        ensures { values_of result ≡ self }
    {
        let Key { parts } = self;
        parts
    }

    /// The key of a vector's values.
    pub fn of(values: Vec<Datum>) -> Key
        ensures { result ≡ values.items }
    {
        Key {
            parts: Parts::Many(values),
        }
    }

    /// Lends the values in the order of the key's columns.
    pub fn values(&self) -> &[Datum]
        ensures { result.now ≡ self.now }
    {
        match &self.parts {
            Parts::One(value) => value.as_slice(),
            Parts::Many(values) => values.as_slice(),
        }
    }

    /// The same key in memory of its own.
    pub fn copy(&self, alloc: Global) -> Result<Key, AllocError>
        ensures { IfOk result (λ key. key ≡ self.now) }
    {
        match &self.parts {
            Parts::One([value]) => Ok(Key {
                parts: Parts::One([value.copy(alloc)?]),
            }),
            Parts::Many(values) => Ok(Key {
                parts: Parts::Many(copied(alloc, values.as_slice())?),
            }),
        }
    }

    /// The row's values in the columns.
    pub(crate) fn of_row(alloc: Global, columns: &[u32], row: &Row) -> Result<Key, AllocError>
        requires { AreColumnsOf row.now columns.now }
        ensures { IfOk result (λ key. key ≡ values_at columns.now row.now) }
    {
        let values = row.values();
        let parts = match columns {
            [column] => Parts::One([values[*column as usize].copy(alloc)?]),
            _ => Parts::Many(values_in(alloc, columns, values)?),
        };
        Ok(Key { parts })
    }
}

fn values_in(alloc: Global, columns: &[u32], row: &[Datum]) -> Result<Vec<Datum>, AllocError>
    requires { AreColumnsOf row.now columns.now }
    ensures { IfOk result (λ values. values.items ≡ values_at columns.now row.now) }
{
    let mut values = Vec::with_capacity(alloc, columns.len())?;
    add_values(alloc, &mut values, columns, row)?;
    Ok(values)
}

/// Appends the row's values in the columns.
fn add_values(
    alloc: Global,
    values: &mut Vec<Datum>,
    columns: &[u32],
    row: &[Datum],
) -> Result<(), AllocError>
    requires { AreColumnsOf row.now columns.now }
    ensures { OnOk result (values.new.items ≡ values.old.items ++ values_at columns.now row.now) }
{
    for column in columns {
        values.push(row[*column as usize].copy(alloc)?)?;
    }
    Ok(())
}

/// The order of two lists of values: the first that differ decide, and else the lengths do.
fn compare(a: &[Datum], b: &[Datum]) -> Ordering
    ensures { result ≡ key_order a.now b.now }
{
    for i in 0..a.len().min(b.len()) {
        match a[i].total_cmp(&b[i]) {
            Ordering::Equal => {}
            unequal => return unequal,
        }
    }
    a.len().cmp(&b.len())
}

/// Two keys are equal where no value differs from its fellow: `'a'` and `'a '` don't, nor do 1 and 1.0.
impl PartialEq for Key {
    ghost use Rattle.std.specs.Ordering.{eq_by_cmp};
    ghost use Rattle.psm_table.specs.Key.{key_order};
    ghost use Rattle.std.specs.Cmp.{partial_equiv_from_equiv, eq_by_cmp_equiv};
    ghost use Rattle.std.specs.Cmp.Lexicographic.{lists_total};
    ghost use Rattle.psm_value.proofs.DataOrder.{data_order-total};

    ghost eq = { eq_by_cmp key_order };

    ghost laws = { partial_equiv_from_equiv (eq_by_cmp_equiv (lists_total data_order-total)) };

    fn eq(&self, other: &Key) -> bool {
        compare(self.values(), other.values()) == Ordering::Equal
    }
}

impl Eq for Key {
    ghost use Rattle.std.specs.Cmp.{eq_by_cmp_equiv};
    ghost use Rattle.std.specs.Cmp.Lexicographic.{lists_total};
    ghost use Rattle.psm_value.proofs.DataOrder.{data_order-total};

    ghost laws = { eq_by_cmp_equiv (lists_total data_order-total) };
}

impl PartialOrd for Key {
    ghost use Rattle.std.specs.Ordering.{as_partial_cmp};
    ghost use Rattle.psm_table.specs.Key.{key_order};
    ghost use Rattle.std.specs.Cmp.{partial_order_from_total};
    ghost use Rattle.std.specs.Cmp.Lexicographic.{lists_total};
    ghost use Rattle.psm_value.proofs.DataOrder.{data_order-total};

    ghost partial_cmp = { as_partial_cmp key_order };

    ghost laws = { partial_order_from_total (lists_total data_order-total) };

    fn partial_cmp(&self, other: &Key) -> Option<Ordering> {
        Some(self.cmp(other))
    }
}

/// Keys are compared value by value: numbers by value, and texts with the shorter padded
/// (ISO/IEC 9075:1992, 8.2).
impl Ord for Key {
    ghost use Rattle.std.proofs.Common.{refl};
    ghost use Rattle.psm_table.specs.Key.{key_order};
    ghost use Rattle.std.specs.Cmp.Lexicographic.{lists_total};
    ghost use Rattle.psm_value.proofs.DataOrder.{data_order-total};

    ghost cmp = { key_order };

    ghost total = { lists_total data_order-total };

    ghost matches_partial_cmp = { λ x y. refl };

    ghost matches_eq = { λ x y. refl };

    fn cmp(&self, other: &Key) -> Ordering {
        compare(self.values(), other.values())
    }
}
