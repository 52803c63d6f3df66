//! The functions that are visible, with what they return.
ghost use Rattle.std.specs.Prelude.{◌≡◌, ◌++◌, [], ◌∷◌, None, slice_index_or, OnOk, OnErr};
ghost use Rattle.psm_scope.specs.Routines.{function};

use crate::choice::choose_routine;
use crate::fault::ChoiceFault;
use crate::kinds::ArgKind;
use crate::signatures::Signatures;
use psm_list::List;
use psm_text::Name;
use psm_value::SqlType;
use std::alloc::{AllocError, Global};
use std::marker::Model;

/// The functions that are visible: the name of each, the kinds of its parameters, and the type that it returns, unless that is at
/// fault. They are numbered from 0. The names are lent.
#[derive(Drop)]
pub struct Functions<'a> {
    signatures: Signatures<'a>,
    results: Vec<Option<SqlType>>,
}

impl<'a> Model for Functions<'a> {
    ghost use Rattle.std.specs.Prelude.{◌≡◌, length};
    ghost use Rattle.psm_scope.specs.Routines.{Callable};

    ghost Value = { Callable };

    ghost view = { λ f. record { signatures = f.signatures; results = f.results.items } };

    ghost invariant = { λ f. length f.results.items ≡ length f.signatures };
}

impl<'a> Functions<'a> {
    /// No functions. It takes no memory.
    pub fn new(alloc: Global) -> Functions<'a>
        ensures { result ≡ record { signatures = []; results = [] } }
    {
        Functions {
            signatures: Signatures::new(alloc),
            results: Vec::new(alloc),
        }
    }

    /// Puts a function after the others. Without memory for it nothing changes.
    pub fn push(
        &mut self,
        name: &'a Name,
        kinds: List<ArgKind>,
        returned: Option<SqlType>,
    ) -> Result<(), AllocError>
        ensures ok { OnOk result (self.new ≡ record { signatures = self.old.signatures ++ record { name = name.now; kinds = kinds } ∷ []; results = self.old.results ++ returned ∷ [] }) }
        ensures err { OnErr result (self.new ≡ self.old) }
    {
        self.results.reserve(1)?;
        self.signatures.push(name, kinds)?;
        self.results.push(returned)?;
        Ok(())
    }

    /// The names of the functions and the kinds of their parameters.
    pub fn signatures(&self) -> &Signatures<'a>
        ensures { result.now ≡ self.now.signatures }
    {
        &self.signatures
    }

    /// The number of the function that a call means, and the type that it returns, unless that is at fault. The faults are those of
    /// [`choose_routine`].
    pub fn function(
        &self,
        name: &Name,
        kinds: &[ArgKind],
    ) -> Result<(u32, Option<SqlType>), ChoiceFault>
        ensures { result ≡ function self.now name.now kinds.now }
    {
        match choose_routine(&self.signatures, name, kinds) {
            Ok(number) => Ok((number, self.returned(number))),
            Err(fault) => Err(fault),
        }
    }

    // The type that a function returns.
    fn returned(&self, number: u32) -> Option<SqlType>
        ensures { result ≡ slice_index_or self.now.results number None }
    {
        match self.results.get(number as usize) {
            None => None,
            Some(returned) => *returned,
        }
    }
}
