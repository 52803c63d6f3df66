//! What is known of declared names.

use psm_sqlstate::SqlState;
use psm_value::SqlType;

/// What is known of a variable or a parameter.
#[derive(Clone, Copy, Debug, PartialEq, Eq)]
pub struct Variable {
    /// Its type. `None` where it is declared with a type that is at fault.
    pub kind: Option<SqlType>,
    /// The number of its slot in the routine.
    pub slot: u32,
    /// Whether it can be assigned to, as all but an IN parameter can.
    pub assignable: bool,
}

/// What is known of a declared condition (ISO/IEC 9075-4:1996).
#[derive(Clone, Copy, Debug, PartialEq, Eq)]
pub struct DeclaredCondition {
    /// Its number in the routine.
    pub number: u32,
    /// The SQLSTATE that it is another name of, if any.
    pub state: Option<SqlState>,
}
