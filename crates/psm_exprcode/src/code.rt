//! The code of an expression.
ghost use Rattle.std.specs.Prelude.{◌≡◌};
ghost use Rattle.psm_exprcode.specs.WellFormed.{code_of, does_fit};

use crate::checking::{Kinds, ends_with, is_well_formed};
use crate::op::Letter;
use crate::raw::RawExpr;
use std::marker::Model;

/// The code of an expression, seen as its lines. They may be any lines: [`ExprCode::fits`] says whether they
/// are well formed over columns and variables of known letters, which is what an evaluation of them needs.
#[derive(Debug, Drop)]
pub struct ExprCode {
    lines: RawExpr,
}

impl Model for ExprCode {
    ghost use Rattle.std.specs.Prelude.{List};
    ghost use Rattle.psm_exprcode.specs.declared.op.Line.{Line};

    ghost Value = { List Line };

    ghost view = { λ c. c.lines };
}

impl ExprCode {
    /// The lines as code, exactly where they are well formed, and else the lines back. Takes no memory.
    pub fn of(lines: RawExpr) -> Result<ExprCode, RawExpr>
        ensures { result ≡ code_of lines }
    {
        if is_well_formed(&lines.lent()) {
            Ok(ExprCode { lines })
        } else {
            Err(lines)
        }
    }

    /// The lines as code, whatever they are, as a listing may state them. Takes no memory.
    pub fn listed(lines: RawExpr) -> ExprCode
        ensures { result ≡ lines }
    {
        ExprCode { lines }
    }

    /// Lends the lines.
    pub fn lines(&self) -> &RawExpr
        ensures value { result.now ≡ self.now }
    {
        &self.lines
    }

    /// Whether each column and each variable that the code names is there, of the kind with which the code
    /// says its letter, and the code ends with an operand of that letter. Takes no memory.
    pub fn fits(&self, columns: &[Letter], variables: &[Letter], end: Letter) -> bool
        ensures { result ≡ does_fit columns.now variables.now self.now end }
    {
        ends_with(Kinds::Of { columns, variables }, &self.lines.lent(), end)
    }
}
