//! The keys by which handlers are found.
ghost use Rattle.std.specs.Prelude.{◌≡◌, ◌++◌};
ghost use Rattle.std.proofs.Common.{rules};
ghost use Rattle.std.specs.Cmp.Rules.{comparing, hashing};
ghost use Rattle.std.specs.Hash as fed;
ghost use Rattle.psm_cond.specs.Keys.{is_value, own_number, state_text, value_kind};

use crate::handlers::ConditionValue;
use std::hash::{Hash, Hasher};

/// A condition value for which the block of a context may declare a handler, as a key of a map.
#[derive(Clone, Copy, Debug, PartialEq, Eq, Hash)]
pub struct HandlerKey {
    pub context: u32,
    pub value: ConditionValue,
}

impl ConditionValue {
    // Its number among the forms of a condition value.
    fn kind(&self) -> u8
        ensures { result ≡ value_kind self.now }
    {
        match self {
            ConditionValue::Named(_) => 0,
            ConditionValue::State(_) => 1,
            ConditionValue::SqlException => 2,
            ConditionValue::SqlWarning => 3,
            ConditionValue::NotFound => 4,
        }
    }

    // The number of the condition that it names, else 0.
    fn own_number(&self) -> u32
        ensures { result ≡ own_number self.now }
    {
        match self {
            ConditionValue::Named(number) => *number,
            ConditionValue::State(_)
            | ConditionValue::SqlException
            | ConditionValue::SqlWarning
            | ConditionValue::NotFound => 0,
        }
    }

    // The SQLSTATE that it is, else nothing.
    fn state_text(&self) -> &str
        ensures { result.now ≡ state_text self.now }
    {
        match self {
            ConditionValue::State(state) => state.text(),
            ConditionValue::Named(_)
            | ConditionValue::SqlException
            | ConditionValue::SqlWarning
            | ConditionValue::NotFound => "",
        }
    }
}

impl PartialEq for ConditionValue {
    ghost eq = { λ a b. is_value a b };

    ghost laws = { Prim.search (comparing, rules) };

    fn eq(&self, other: &ConditionValue) -> bool {
        self.kind() == other.kind()
            && self.own_number() == other.own_number()
            && self.state_text() == other.state_text()
    }
}

impl Eq for ConditionValue {
    ghost laws = { Prim.search (comparing, rules) };
}

impl Hash for ConditionValue {
    ghost hash_input = { λ a. (fed.u8 (value_kind a) ++ fed.u32 (own_number a)) ++ fed.str (state_text a) };

    ghost respects_eq = { Prim.search (hashing, rules) };

    fn hash<H: Hasher>(&self, state: &mut H) {
        self.kind().hash(state);
        self.own_number().hash(state);
        self.state_text().hash(state);
    }
}
