//! The functions that can be called.
ghost use Rattle.std.specs.Prelude.{◌≡◌, ◌<◌, ◌++◌, [], ◌∷◌, length, Some, slice_get, IfOk, OnOk, OnErr};
ghost use Rattle.std.specs.Option.{option_copied, option_map};
ghost use Rattle.std.specs.Cow.{cow_slice_items};
ghost use Rattle.psm_scope.specs.Blocks.{IsGroup};
ghost use Rattle.psm_scope.specs.Choice.{Signature};
ghost use Rattle.psm_scope.specs.Exact.{exact, exact_of};
ghost use Rattle.psm_scope.specs.Signatures.{called};

use crate::blocks::Group;
use crate::index::{Exact, Index};
use crate::key::{CallKey, FunctionKey, NameKey};
use crate::kinds::ArgKind;
use indexmap::IndexMap;
use psm_list::List;
use psm_text::Name;
use std::alloc::{AllocError, Global};
use std::borrow::CowSlice;
use std::marker::Model;

/// A function that can be called.
#[derive(Debug, Drop)]
struct Function<'a> {
    name: &'a Name,
    kinds: List<ArgKind>,
}

/// A list of functions, each a name with the kinds of its parameters, numbered from 0. A look-up by name and number of parameters,
/// or by name and kinds, goes through an index. The names are lent.
#[derive(Drop)]
pub struct Signatures<'a> {
    alloc: Global,
    functions: Vec<Function<'a>>,
    index: Index<'a>,
}

impl<'a> Model for Signatures<'a> {
    ghost use Rattle.std.specs.Prelude.{◌<◌, ◌^◌, List, length, map};
    ghost use Rattle.psm_scope.specs.Choice.{Signature};
    ghost use Rattle.psm_scope.specs.Signatures.{IsFound, IsGrouped, signature_of};

    ghost Value = { List Signature };

    ghost view = { λ s. map signature_of s.functions.items };

    ghost invariant = { λ s. (length s.functions.items < 2 ^ 32) × IsGrouped s.functions.items s.index.groups.entries × IsFound s.functions.items s.index.exact.entries };
}

impl<'a> Signatures<'a> {
    /// No functions. It takes no memory.
    pub fn new(alloc: Global) -> Signatures<'a>
        ensures { result ≡ [] }
    {
        Signatures {
            alloc,
            functions: Vec::new(alloc),
            index: Index {
                groups: IndexMap::new(alloc),
                exact: IndexMap::new(alloc),
            },
        }
    }

    /// Puts a function after the others. Without memory for it nothing changes.
    pub fn push(&mut self, name: &'a Name, kinds: List<ArgKind>) -> Result<(), AllocError>
        ensures ok { OnOk result (self.new ≡ self.old ++ record { name = name.now; kinds = kinds } ∷ []) }
        ensures err { OnErr result (self.new ≡ self.old) }
    {
        let number = self.len();
        if number == u32::MAX {
            return Err(AllocError);
        }
        self.functions.reserve(1)?;
        let call = call_key(name, kinds.items().len());
        let function = function_key(self.alloc, name, kinds.items())?;
        self.index
            .add(self.alloc, call, function, number, kinds.items())?;
        self.functions.push(Function { name, kinds })?;
        Ok(())
    }

    /// How many functions there are.
    pub fn len(&self) -> u32
        ensures { result ≡ length self.now }
    {
        self.functions.len() as u32
    }

    /// The kinds of the parameters of the function with that number.
    pub fn kinds(&self, number: u32) -> &[ArgKind]
        requires { number < length self.now }
        ensures { option_map (λ s. s.kinds) (slice_get self.now number) ≡ Some result.now }
    {
        self.functions[number as usize].kinds.items()
    }

    /// The functions with that name and number of parameters. `None` stands for no functions, and no functions may have a group.
    pub(crate) fn group(&self, name: &Name, count: usize) -> Option<&Group>
        ensures { IsGroup count (called 0 name.now count self.now) (option_copied result) }
    {
        let key = call_key(name, count);
        match self.index.groups.get_index_of(&key) {
            None => None,
            Some(at) => match self.index.groups.get_index(at) {
                None => None,
                Some((_, group)) => Some(group),
            },
        }
    }

    /// The functions with that name and exactly those kinds of parameters.
    pub(crate) fn exact(&self, name: &Name, kinds: &[ArgKind]) -> Option<Exact>
        ensures { result ≡ exact_of (exact 0 name.now kinds.now self.now) }
    {
        let key = FunctionKey {
            name: NameKey { name },
            kinds: CowSlice::Borrowed(kinds),
        };
        self.index.exact.get(&key).copied()
    }
}

fn call_key<'a>(name: &'a Name, count: usize) -> CallKey<'a>
    ensures name { result.name.name ≡ name.entry }
    ensures count { result.count ≡ count }
{
    CallKey {
        name: NameKey { name },
        count,
    }
}

fn function_key<'a>(
    alloc: Global,
    name: &'a Name,
    kinds: &[ArgKind],
) -> Result<FunctionKey<'a>, AllocError>
    ensures name { IfOk result (λ key. key.name.name.now ≡ name.now) }
    ensures kinds { IfOk result (λ key. cow_slice_items key.kinds ≡ kinds.now) }
{
    Ok(FunctionKey {
        name: NameKey { name },
        kinds: CowSlice::Owned(Vec::from_slice(alloc, kinds)?),
    })
}
