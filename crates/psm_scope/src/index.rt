//! The maps by which functions are found.
ghost use Rattle.std.specs.Prelude.{◌≡◌, ◌++◌, ◌∷◌, [], false, cond, length, IsSome, OnOk, OnErr, List as Seq};
ghost use Rattle.std.specs.Option.{option_copied};
ghost use Rattle.indexmap.specs.IndexMap.{get};
ghost use Rattle.psm_scope.specs.declared.key.CallKey.{CallKey as Called};
ghost use Rattle.psm_scope.specs.declared.key.FunctionKey.{FunctionKey as Keyed};
ghost use Rattle.psm_scope.specs.Blocks.{IsGroup};
ghost use Rattle.psm_scope.specs.Choice.{Candidate};
ghost use Rattle.psm_scope.specs.Exact.{choice_of, one_more};
ghost use Rattle.psm_scope.specs.Keys.{same_call, same_function};

use crate::blocks::Group;
use crate::fault::ChoiceFault;
use crate::key::{CallKey, FunctionKey};
use crate::kinds::ArgKind;
use indexmap::IndexMap;
use std::alloc::{AllocError, Global};

/// The functions that have one name and the same kinds of parameters: the number of the first, and whether there are more.
#[derive(Clone, Copy, Debug)]
pub(crate) struct Exact {
    pub(crate) number: u32,
    pub(crate) tied: bool,
}

impl Exact {
    /// The one, where it is alone.
    pub(crate) fn choice(self) -> Result<u32, ChoiceFault>
        ensures { result ≡ choice_of self }
    {
        if self.tied {
            Err(ChoiceFault::Ambiguous)
        } else {
            Ok(self.number)
        }
    }
}

/// The functions of each name and number of parameters, and of each name and kinds.
#[derive(Drop)]
pub(crate) struct Index<'a> {
    pub(crate) groups: IndexMap<CallKey<'a>, Group>,
    pub(crate) exact: IndexMap<FunctionKey<'a>, Exact>,
}

impl<'a> Index<'a> {
    /// Notes one function more. Without memory for it the functions stay the same.
    pub(crate) fn add(
        &mut self,
        alloc: Global,
        call: CallKey<'a>,
        function: FunctionKey<'a>,
        number: u32,
        kinds: &[ArgKind],
    ) -> Result<(), AllocError>
        requires { (cs : Seq Candidate) × IsGroup (length kinds.now) cs (get same_call self.old.groups call) }
        ensures others { (q : Called) → same_call call.entry q ≡ false → get same_call self.new.groups q ≡ get same_call self.old.groups q }
        ensures group { OnOk result ((cs : Seq Candidate) → IsGroup (length kinds.now) cs (get same_call self.old.groups call.entry) → IsGroup (length kinds.now) (cs ++ (number, kinds.now) ∷ []) (get same_call self.new.groups call.entry)) }
        ensures group_stays { OnErr result ((cs : Seq Candidate) → IsGroup (length kinds.now) cs (get same_call self.old.groups call.entry) → IsGroup (length kinds.now) cs (get same_call self.new.groups call.entry)) }
        ensures exact { OnOk result ((q : Keyed) → get same_function self.new.exact q ≡ cond (same_function function.entry q) (Some (one_more number (get same_function self.old.exact function.entry))) (get same_function self.old.exact q)) }
        ensures exact_stays { OnErr result (self.new.exact.entries ≡ self.old.exact.entries) }
    {
        self.exact.reserve(1)?;
        add_to(&mut self.groups, alloc, call, number, kinds)?;
        let functions = one_more(self.exact.get(&function), number);
        self.exact.insert(function, functions)?;
        Ok(())
    }
}

// Puts a function into the group of its name and number of parameters. Without memory for it the functions stay the same.
fn add_to<'a>(
    groups: &mut IndexMap<CallKey<'a>, Group>,
    alloc: Global,
    call: CallKey<'a>,
    number: u32,
    kinds: &[ArgKind],
) -> Result<(), AllocError>
    requires { (cs : Seq Candidate) × IsGroup (length kinds.now) cs (get same_call groups.old call) }
    ensures others { (q : Called) → same_call call.entry q ≡ false → get same_call groups.new q ≡ get same_call groups.old q }
    ensures ok { OnOk result ((cs : Seq Candidate) → IsGroup (length kinds.now) cs (get same_call groups.old call.entry) → IsGroup (length kinds.now) (cs ++ (number, kinds.now) ∷ []) (get same_call groups.new call.entry)) }
    ensures err { OnErr result ((cs : Seq Candidate) → IsGroup (length kinds.now) cs (get same_call groups.old call.entry) → IsGroup (length kinds.now) cs (get same_call groups.new call.entry)) }
{
    if groups.contains_key(&call) {
        return add_to_known(groups, alloc, &call, number, kinds);
    }
    let mut group = Group::new(alloc)?;
    group.push(alloc, number, kinds)?;
    groups.insert(call, group)?;
    Ok(())
}

// The same where there is a group.
fn add_to_known<'a>(
    groups: &mut IndexMap<CallKey<'a>, Group>,
    alloc: Global,
    call: &CallKey<'a>,
    number: u32,
    kinds: &[ArgKind],
) -> Result<(), AllocError>
    requires known { IsSome (get same_call groups.old call.now) }
    requires group { (cs : Seq Candidate) × IsGroup (length kinds.now) cs (get same_call groups.old call.now) }
    ensures others { (q : Called) → same_call call.now q ≡ false → get same_call groups.new q ≡ get same_call groups.old q }
    ensures ok { OnOk result ((cs : Seq Candidate) → IsGroup (length kinds.now) cs (get same_call groups.old call.now) → IsGroup (length kinds.now) (cs ++ (number, kinds.now) ∷ []) (get same_call groups.new call.now)) }
    ensures err { OnErr result ((cs : Seq Candidate) → IsGroup (length kinds.now) cs (get same_call groups.old call.now) → IsGroup (length kinds.now) cs (get same_call groups.new call.now)) }
{
    match groups.get_mut(call) {
        None => unreachable!(),
        Some(group) => group.push(alloc, number, kinds),
    }
}

fn one_more(functions: Option<&Exact>, number: u32) -> Exact
    ensures { result ≡ one_more number (option_copied functions.entry) }
{
    match functions {
        None => Exact {
            number,
            tied: false,
        },
        Some(functions) => Exact {
            number: functions.number,
            tied: true,
        },
    }
}
