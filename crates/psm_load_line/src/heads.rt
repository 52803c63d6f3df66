//! Lines that count others.
ghost use Rattle.std.specs.Prelude.{◌≡◌};
ghost use Rattle.psm_load_line.specs.Forms as forms;
ghost use Rattle.psm_load_line.specs.OperationForms.{expression_at};

use crate::front::{index, keyword};

/// How many lines follow a line `EXPR m`.
pub fn expression_head(line: &[u8]) -> Option<u32>
    ensures { result ≡ expression_at line.now }
{
    let (m, rest) = index(keyword(b"EXPR", line)?)?;
    if rest.is_empty() { Some(m) } else { None }
}

/// The column of a line `SET i`.
pub fn set_head(line: &[u8]) -> Option<u32>
    ensures { result ≡ forms.set_at line.now }
{
    let (i, rest) = index(keyword(b"SET", line)?)?;
    if rest.is_empty() { Some(i) } else { None }
}

/// How many tables and routines there are, by the first line.
pub fn first_head(line: &[u8]) -> Option<(u32, u32)>
    ensures { result ≡ forms.first_at line.now }
{
    let (tables, rest) = index(keyword(b"PSM 3", line)?)?;
    let (routines, rest) = index(rest)?;
    if rest.is_empty() {
        Some((tables, routines))
    } else {
        None
    }
}
