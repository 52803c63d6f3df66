//! Sums of numbers, which grow beyond those that are values.
ghost use Rattle.std.specs.Prelude.{◌≡◌, ◌<◌, ◌≤◌, pos, int_div, ◌+ℤ◌, ◌^◌, unsigned_abs, Ok, Some};
ghost use Rattle.psm_table.specs.Queries.{averaged, in_range, number_of as number_in, summed};
ghost use Rattle.psm_table.specs.Table.{most_rows};
ghost use Rattle.psm_value.specs.declared.datum.Datum.TheVariants as data_of;
ghost use Rattle.psm_query.specs.declared.total.Summing.TheVariants as summing_of;
ghost use Rattle.psm_query.specs.Tallies.{average_in, count_in, sum_in, with_number};

use psm_value::{Datum, Dec, SqlState};
use std::marker::Model;

/// So much is beyond each coefficient of a number.
const BEYOND: i128 = 1_000_000_000_000_000_000;

/// A sum of numbers, at the scale of the first, and how many they are.
#[derive(Debug, Drop)]
pub(crate) struct Total {
    coef: i128,
    scale: u8,
    count: u32,
}

impl Model for Total {
    ghost use Rattle.std.specs.Prelude.{◌<◌, ◌≤◌, ◌*◌, unsigned_abs};
    ghost use Rattle.psm_query.specs.Counted.{Counted};

    ghost Value = { Counted };

    ghost view = { λ t. record { sum = record { coef = t.coef; scale = t.scale }; count = t.count } };

    ghost invariant = { λ t. (t.scale ≤ 18) × (0 < t.count) × (unsigned_abs t.coef ≤ t.count * 999999999999999999) };
}

/// The sum of the numbers so far.
#[derive(Debug, Drop)]
pub(crate) enum Summing {
    /// There is none yet.
    Empty,
    /// One of them has more than 18 digits at the scale of the first.
    OutOfRange,
    Of(Total),
}

impl Summing {
    /// Adds a number. What isn't a number counts as zero.
    pub(crate) fn add(&mut self, value: &Datum)
        requires { count_in self.old < most_rows }
        ensures { self.new ≡ with_number self.old value.now }
    {
        let number = number_of(value);
        *self = match self {
            Summing::Empty => Summing::Of(Total::first(number)),
            Summing::OutOfRange => Summing::OutOfRange,
            Summing::Of(total) => total.with(number),
        };
    }

    /// The sum. More than 18 digits are out of range.
    pub(crate) fn sum(&self) -> Result<Datum, SqlState>
        ensures { result ≡ sum_in self.now }
    {
        match self {
            Summing::Empty => Ok(Datum::Null),
            Summing::OutOfRange => Err(SqlState::OUT_OF_RANGE),
            Summing::Of(total) => total.sum(),
        }
    }

    /// The sum over the count, cut toward zero at the scale of the sum.
    pub(crate) fn average(&self) -> Result<Datum, SqlState>
        ensures { result ≡ average_in self.now }
    {
        match self {
            Summing::Empty => Ok(Datum::Null),
            Summing::OutOfRange => Err(SqlState::OUT_OF_RANGE),
            Summing::Of(total) => Ok(total.average()),
        }
    }
}

impl Total {
    fn first(number: Dec) -> Total
        ensures { result ≡ record { sum = number; count = 1 } }
    {
        Total {
            coef: i128::from(number.coef()),
            scale: number.scale(),
            count: 1,
        }
    }

    fn with(&self, number: Dec) -> Summing
        requires { self.now.count < most_rows }
        ensures { result ≡ with_number (summing_of.Of self.now) (data_of.Num number) }
    {
        match number.rescale(self.scale) {
            Ok(number) => Summing::Of(Total {
                coef: plus(self.coef, number.coef()),
                scale: self.scale,
                count: self.count + 1,
            }),
            Err(_) => Summing::OutOfRange,
        }
    }

    fn sum(&self) -> Result<Datum, SqlState>
        ensures { result ≡ summed (Some self.now.sum) }
    {
        match bounded(self.coef, self.scale) {
            Some(number) => Ok(Datum::Num(number)),
            None => Err(SqlState::OUT_OF_RANGE),
        }
    }

    fn average(&self) -> Datum
        ensures { Ok result ≡ averaged (Some self.now.sum) self.now.count }
    {
        Datum::Num(within(self.mean(), self.scale))
    }

    #[tactic(auto, using(crate::proofs::Means::mean_small))]
    fn mean(&self) -> i128
        ensures value { result ≡ int_div self.now.sum.coef (pos self.now.count) }
        ensures small { unsigned_abs result < 1000000000000000000 }
    {
        self.coef / i128::from(self.count)
    }
}

fn within(coef: i128, scale: u8) -> Dec
    requires digits { unsigned_abs coef < 1000000000000000000 }
    requires bound { scale ≤ 18 }
    ensures { result ≡ record { coef = coef; scale = scale } }
{
    Dec::new(coef as i64, scale).unwrap()
}

fn plus(left: i128, right: i64) -> i128
    requires left_small { unsigned_abs left < 10 ^ 36 }
    ensures { result ≡ left +ℤ right }
{
    left + i128::from(right)
}

/// The number, where it has at most 18 digits.
fn bounded(coef: i128, scale: u8) -> Option<Dec>
    ensures { result ≡ in_range (record { coef = coef; scale = scale }) }
{
    if -BEYOND < coef && coef < BEYOND {
        Dec::new(coef as i64, scale)
    } else {
        None
    }
}

/// A value's number. What isn't a number counts as zero.
fn number_of(value: &Datum) -> Dec
    ensures { result ≡ number_in value.now }
{
    match value {
        Datum::Num(number) => *number,
        Datum::Null | Datum::Text(_) => Dec::new(0, 0).unwrap(),
    }
}
