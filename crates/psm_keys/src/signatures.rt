//! Routines that can be distinguished (ISO/IEC 9075-4:1996): procedures of one name by the number of parameters, functions of one name
//! by their kinds.
ghost use Rattle.std.specs.Prelude.{◌≡◌, [], IfOk, OnErr};
ghost use Rattle.psm_keys.specs.Fresh.{is_new, with_new};
ghost use Rattle.psm_keys.specs.Signature.{is_same_signature, kind_number, kind_numbers, signature_of};
ghost use Rattle.psm_keys.specs.KeySignature.{key_signature};

use crate::names::NameKey;
use indexmap::IndexSet;
use psm_code::{Parameter, RawRoutine};
use psm_value::SqlType;
use std::alloc::{AllocError, Global};
use std::marker::Model;

/// What distinguishes a routine from the others of its name, as a key of a map.
#[derive(PartialEq, Eq, Hash, Drop)]
struct SignatureKey<'a> {
    name: NameKey<'a>,
    is_function: bool,
    /// The number of a procedure's parameters.
    count: usize,
    /// The kinds of a function's parameters.
    kinds: Vec<u8>,
}

/// The signatures of routines in the order in which they were added.
#[derive(Drop)]
pub struct SignatureSet<'a> {
    alloc: Global,
    keys: IndexSet<SignatureKey<'a>>,
}

impl<'a> Model for SignatureSet<'a> {
    ghost use Rattle.std.specs.Prelude.{List, map};
    ghost use Rattle.psm_keys.specs.Signature.{Signature};
    ghost use Rattle.psm_keys.specs.KeySignature.{key_signature};

    ghost Value = { List Signature };

    ghost view = { λ s. map key_signature s.keys.keys };
}

impl<'a> SignatureSet<'a> {
    /// No routines. It takes no memory.
    pub fn new(alloc: Global) -> SignatureSet<'a>
        ensures { result ≡ [] }
    {
        SignatureSet {
            alloc,
            keys: IndexSet::new(alloc),
        }
    }

    /// Puts a routine after the others, or answers `false` where it can't be distinguished from one of them.
    pub fn add(&mut self, routine: &'a RawRoutine) -> Result<bool, AllocError>
        ensures answer { IfOk result (λ new. new ≡ is_new is_same_signature (signature_of routine.now) self.old) }
        ensures after { IfOk result (λ new. self.new ≡ with_new new (signature_of routine.now) self.old) }
        ensures err { OnErr result (self.new ≡ self.old) }
    {
        let key = key_of(self.alloc, routine)?;
        let added = self.keys.insert(key)?;
        Ok(added)
    }
}

fn key_of<'a>(alloc: Global, routine: &'a RawRoutine) -> Result<SignatureKey<'a>, AllocError>
    ensures { IfOk result (λ key. key_signature key ≡ signature_of routine.now) }
{
    let name = NameKey {
        name: &routine.name,
    };
    let parameters = routine.parameters.items();
    if routine.is_function {
        Ok(SignatureKey {
            name,
            is_function: true,
            count: 0,
            kinds: kinds_of(alloc, parameters)?,
        })
    } else {
        Ok(SignatureKey {
            name,
            is_function: false,
            count: parameters.len(),
            kinds: Vec::new(alloc),
        })
    }
}

fn kinds_of(alloc: Global, parameters: &[Parameter]) -> Result<Vec<u8>, AllocError>
    ensures { IfOk result (λ kinds. kinds.items ≡ kind_numbers parameters.now) }
{
    let mut kinds = Vec::new(alloc);
    for parameter in parameters {
        kinds.push(kind_number(parameter.kind))?;
    }
    Ok(kinds)
}

fn kind_number(kind: SqlType) -> u8
    ensures { result ≡ kind_number kind }
{
    match kind {
        SqlType::SmallInt => 0,
        SqlType::Integer => 1,
        SqlType::Numeric { .. } => 2,
        SqlType::Char { .. } => 3,
        SqlType::VarChar { .. } => 4,
    }
}
