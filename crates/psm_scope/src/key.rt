//! Keys of maps.
ghost use Rattle.std.specs.Prelude.{◌≡◌, nat_eq, encode_utf8_all};
ghost use Rattle.std.proofs.Common.{rules};
ghost use Rattle.std.specs.Cmp.Lexicographic.{pointwise};
ghost use Rattle.std.specs.Cmp.Rules.{comparing, hashing};
ghost use Rattle.std.specs.Hash as fed;

use crate::kinds::ArgKind;
use psm_text::Name;
use std::borrow::CowSlice;
use std::hash::{Hash, Hasher};

/// A lent name as a key of a map.
#[derive(Clone, Copy, Debug)]
pub struct NameKey<'a> {
    pub name: &'a Name,
}

/// The name and the number of arguments of a call, as a key of a map.
#[derive(Clone, Copy, Debug, PartialEq, Eq, Hash)]
pub struct CallKey<'a> {
    pub name: NameKey<'a>,
    pub count: usize,
}

/// The name of a function and the kinds of its parameters, as a key of a map. The kinds are lent to look for one.
#[derive(PartialEq, Eq, Hash, Drop)]
pub struct FunctionKey<'a> {
    pub name: NameKey<'a>,
    pub kinds: CowSlice<'a, ArgKind>,
}

/// Whether two names have the same characters.
pub(crate) fn same_name(a: &Name, b: &Name) -> bool
    ensures { result ≡ pointwise nat_eq a.now b.now }
{
    a.is(b)
}

impl<'a> PartialEq for NameKey<'a> {
    ghost eq = { λ a b. pointwise nat_eq a.name.now b.name.now };

    ghost laws = { Prim.search (comparing, rules) };

    fn eq(&self, other: &NameKey<'a>) -> bool {
        same_name(self.name, other.name)
    }
}

impl<'a> Eq for NameKey<'a> {
    ghost laws = { Prim.search (comparing, rules) };
}

impl<'a> Hash for NameKey<'a> {
    ghost hash_input = { λ a. fed.str (encode_utf8_all a.name.now) };

    ghost respects_eq = { Prim.search (hashing, rules) };

    fn hash<H: Hasher>(&self, state: &mut H) {
        self.name.as_str().hash(state);
    }
}
