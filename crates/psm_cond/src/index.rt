//! The index by which a handler is found.
ghost use Rattle.std.specs.Prelude.{◌≡◌, ◌<◌, ◌^◌, ◌∷◌, length, IfOk, OnOk};
ghost use Rattle.indexmap.specs.IndexMap.{get};
ghost use Rattle.psm_cond.specs.Index.{IsIndex, Notes, has_value, is_own_for};
ghost use Rattle.psm_cond.specs.Keys.{same_key};

use crate::handlers::{ConditionValue, Handler};
use crate::key::HandlerKey;
use indexmap::IndexMap;
use psm_list::List;
use std::alloc::{AllocError, Global};

/// The number of the first handler of each context and condition value.
#[derive(Debug, Drop)]
pub(crate) struct Index {
    first: IndexMap<HandlerKey, u32>,
}

impl Index {
    /// The index of some handlers, which are numbered from 0.
    pub(crate) fn of(alloc: Global, handlers: &List<Handler>) -> Result<Index, AllocError>
        requires { length handlers.now < 2 ^ 32 }
        ensures { IfOk result (λ index. IsIndex index handlers.now) }
    {
        let mut index = Index {
            first: IndexMap::new(alloc),
        };
        for (number, handler) in handlers.items().iter().enumerate() {
            index.add_handler(handler, number as u32)?;
        }
        Ok(index)
    }

    /// Notes a handler for each of its values that its block has no handler for.
    fn add_handler(&mut self, handler: &Handler, number: u32) -> Result<(), AllocError>
        ensures { OnOk result (Notes (λ key. is_own_for key handler.now) number self.old self.new) }
    {
        let values = &handler.values;
        self.add_values(handler.context, values.first, values.rest.items(), number)
    }

    /// Notes a number for a context and each of one or more values, where they have none.
    fn add_values(
        &mut self,
        context: u32,
        first: ConditionValue,
        rest: &[ConditionValue],
        number: u32,
    ) -> Result<(), AllocError>
        ensures { OnOk result (Notes (has_value context (first ∷ rest.now)) number self.old self.new) }
    {
        self.add(context, first, number)?;
        for value in rest {
            self.add(context, *value, number)?;
        }
        Ok(())
    }

    /// Notes a number for a context and a value, where they have none.
    fn add(&mut self, context: u32, value: ConditionValue, number: u32) -> Result<(), AllocError>
        ensures { OnOk result (Notes (λ key. same_key key (record { context = context; value = value })) number self.old self.new) }
    {
        let key = HandlerKey { context, value };
        if self.first.contains_key(&key) {
            return Ok(());
        }
        self.first.insert(key, number)?;
        Ok(())
    }

    /// The number of the first handler for a key.
    pub(crate) fn get(&self, key: HandlerKey) -> Option<u32>
        ensures { result ≡ get same_key self.now.first key }
    {
        self.first.get(&key).copied()
    }
}
