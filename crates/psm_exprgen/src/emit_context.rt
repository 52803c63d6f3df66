//! What lines of an expression are written over.
use crate::known::Known;
use std::alloc::Global;

/// Where memory comes from, what is known of the file and the routine, and what all lines have in common: the context, and the label of
/// the line at which the run goes on after a condition.
#[derive(Clone, Copy)]
pub struct EmitContext<'a> {
    pub alloc: Global,
    pub known: &'a Known,
    pub context: u32,
    pub resume: u32,
}
