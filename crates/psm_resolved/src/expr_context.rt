//! What lines of an expression are written over.
use psm_exprcode::Letter;
use std::alloc::Global;

/// Where memory comes from, and the letters of the columns and the variables.
#[derive(Clone, Copy)]
pub(crate) struct ExprContext<'a> {
    pub alloc: Global,
    pub columns: &'a [Letter],
    pub variables: &'a [Letter],
}
