//! Functions of one number of parameters in blocks of 64, with sets by which the candidates of a call are found 64 at a time.
ghost use Rattle.std.specs.Prelude.{◌≡◌, ◌<◌, ◌≤◌, ◌^◌, ◌++◌, ◌∷◌, [], ℕ, Bool, true, length, nat_le, not, OnOk, OnErr, IfOk, List as Seq};
ghost use Rattle.std.specs.List.{filter};
ghost use Rattle.psm_scope.specs.Choice.{Candidate, all_go, goes_to, is_number as number, is_text as text, lowest, narrowed, narrowed_by};
ghost use Rattle.psm_scope.specs.Exact.{exact_of};
ghost use Rattle.psm_scope.specs.Blocks.{AreBlocks, HasSets, HaveCount, IsBlock, members, parameter, set_of};

use crate::index::Exact;
use crate::kinds::ArgKind;
use std::alloc::{AllocError, Global};

/// How many functions a block has at most.
const FULL: usize = 64;

/// The functions of a block by their parameters at one index. Bit k of a set is that of function k of the block.
#[derive(Clone, Copy, Debug)]
struct ParameterSets {
    /// Those with a number.
    numbers: u64,
    /// Those with a text.
    texts: u64,
    /// Those with a kind of rank 1 or more.
    from_first: u64,
    /// Those with a kind of rank 2.
    from_second: u64,
}

impl ParameterSets {
    const NONE: ParameterSets = ParameterSets {
        numbers: 0,
        texts: 0,
        from_first: 0,
        from_second: 0,
    };

    // With one function more, whose bit is given.
    fn with(self, kind: ArgKind, bit: u64) -> ParameterSets
        ensures { (index : ℕ) (cs : Seq Candidate) (c : Candidate) → length cs < 64 → bit ≡ 2 ^ length cs → kind ≡ parameter index c → HasSets index cs self → HasSets index (cs ++ c ∷ []) result }
    {
        ParameterSets {
            numbers: with_bit(self.numbers, bit, is_number(kind)),
            texts: with_bit(self.texts, bit, is_text(kind)),
            from_first: with_bit(self.from_first, bit, kind.rank() >= 1),
            from_second: with_bit(self.from_second, bit, kind.rank() >= 2),
        }
    }

    // Those of a set to whose parameters an argument goes.
    fn reached(self, arg: ArgKind, set: u64) -> u64
        ensures members { (index : ℕ) (cs : Seq Candidate) → HasSets index cs self → members result cs ≡ filter (λ c. goes_to arg (parameter index c)) (members set cs) }
        ensures within { result ≤ set }
    {
        match arg {
            ArgKind::SmallInt => set & self.numbers,
            ArgKind::Integer => set & self.numbers & self.from_first,
            ArgKind::Numeric => set & self.numbers & self.from_second,
            ArgKind::Char => set & self.texts,
            ArgKind::VarChar => set & self.texts & self.from_first,
            ArgKind::Null => set,
        }
    }

    // Those of a set that stay beside an argument: those with the lowest kind, and all where it is NULL.
    fn narrowed(self, arg: ArgKind, set: u64) -> u64
        ensures members { (index : ℕ) (cs : Seq Candidate) → HasSets index cs self → set ≤ set_of (λ c. true) cs → members result cs ≡ narrowed_by arg index (members set cs) }
        ensures within { result ≤ set }
    {
        match arg {
            ArgKind::Null => set,
            ArgKind::SmallInt
            | ArgKind::Integer
            | ArgKind::Numeric
            | ArgKind::Char
            | ArgKind::VarChar => self.lowest(set),
        }
    }

    // Those of a set with the lowest kind.
    fn lowest(self, set: u64) -> u64
        ensures members { (index : ℕ) (cs : Seq Candidate) → HasSets index cs self → set ≤ set_of (λ c. true) cs → members result cs ≡ lowest index (members set cs) }
        ensures within { result ≤ set }
    {
        let first = without(set, self.from_first);
        if first != 0 {
            return first;
        }
        let second = without(set, self.from_second);
        if second != 0 {
            return second;
        }
        set
    }
}

// The members of one set that are in no other.
fn without(set: u64, other: u64) -> u64
    ensures members { (test : Candidate → Bool) (cs : Seq Candidate) → other ≡ set_of test cs → members result cs ≡ filter (λ c. not (test c)) (members set cs) }
    ensures within { result ≤ set }
{
    set & !other
}

fn with_bit(set: u64, bit: u64, is_member: bool) -> u64
    ensures { (test : Candidate → Bool) (cs : Seq Candidate) (c : Candidate) → length cs < 64 → bit ≡ 2 ^ length cs → is_member ≡ test c → set ≡ set_of test cs → result ≡ set_of test (cs ++ c ∷ []) }
{
    if is_member { set | bit } else { set }
}

fn is_number(kind: ArgKind) -> bool
    ensures { result ≡ number kind }
{
    match kind {
        ArgKind::SmallInt | ArgKind::Integer | ArgKind::Numeric => true,
        ArgKind::Char | ArgKind::VarChar | ArgKind::Null => false,
    }
}

fn is_text(kind: ArgKind) -> bool
    ensures { result ≡ text kind }
{
    match kind {
        ArgKind::Char | ArgKind::VarChar => true,
        ArgKind::SmallInt | ArgKind::Integer | ArgKind::Numeric | ArgKind::Null => false,
    }
}

/// At most 64 functions with the same number of parameters, in the order of their numbers.
#[derive(Debug, Drop)]
pub(crate) struct Block {
    numbers: Vec<u32>,
    /// The set of all.
    all: u64,
    parameter_sets: Vec<ParameterSets>,
}

impl Block {
    // No functions, of `count` parameters each.
    fn new(alloc: Global, count: usize) -> Result<Block, AllocError>
        ensures block { IfOk result (λ block. IsBlock [] block) }
        ensures parameter_sets { IfOk result (λ block. length block.parameter_sets.items ≡ count) }
    {
        let mut parameter_sets = Vec::with_capacity(alloc, count)?;
        parameter_sets.resize(count, ParameterSets::NONE)?;
        Ok(Block {
            numbers: Vec::new(alloc),
            all: 0,
            parameter_sets,
        })
    }

    fn is_full(&self) -> bool
        ensures { result ≡ nat_le 64 (length self.now.numbers.items) }
    {
        self.numbers.len() >= FULL
    }

    // Puts a function after the others. Without memory for it nothing changes.
    fn push(&mut self, number: u32, kinds: &[ArgKind]) -> Result<(), AllocError>
        requires room { length self.old.numbers.items < 64 }
        requires count { length kinds.now ≡ length self.old.parameter_sets.items }
        ensures ok { OnOk result ((cs : Seq Candidate) → IsBlock cs self.old → IsBlock (cs ++ (number, kinds.now) ∷ []) self.new) }
        ensures err { OnErr result ((cs : Seq Candidate) → IsBlock cs self.old → IsBlock cs self.new) }
        ensures parameter_sets { length self.new.parameter_sets.items ≡ length self.old.parameter_sets.items }
    {
        let bit = 1 << self.numbers.len();
        self.numbers.push(number)?;
        self.all |= bit;
        for (index, kind) in kinds.iter().enumerate() {
            self.parameter_sets[index] = self.parameter_sets[index].with(*kind, bit);
        }
        Ok(())
    }

    /// The candidates for arguments of these kinds that stay after narrowing: the first, and whether there are more.
    pub(crate) fn best(&self, args: &[ArgKind]) -> Option<Exact>
        requires parameter_sets { length args.now ≡ length self.now.parameter_sets.items }
        requires block { (cs : Seq Candidate) × IsBlock cs self.now }
        ensures { (cs : Seq Candidate) → IsBlock cs self.now → HaveCount (length args.now) cs → result ≡ exact_of (narrowed 0 args.now (filter (λ c. all_go args.now c.1) cs)) }
    {
        let set = self.narrowed(args, self.reached(args));
        if set == 0 {
            return None;
        }
        Some(Exact {
            number: self.numbers[set.trailing_zeros() as usize],
            tied: set.count_ones() > 1,
        })
    }

    // Those to whose parameters the arguments go.
    fn reached(&self, args: &[ArgKind]) -> u64
        requires { length args.now ≡ length self.now.parameter_sets.items }
        ensures members { (cs : Seq Candidate) → IsBlock cs self.now → HaveCount (length args.now) cs → members result cs ≡ filter (λ c. all_go args.now c.1) cs }
        ensures within { result ≤ self.now.all }
    {
        let mut set = self.all;
        for (index, arg) in args.iter().enumerate() {
            set = self.parameter_sets[index].reached(*arg, set);
        }
        set
    }

    // Those of a set that stay after narrowing.
    fn narrowed(&self, args: &[ArgKind], set: u64) -> u64
        requires { length args.now ≡ length self.now.parameter_sets.items }
        ensures members { (cs : Seq Candidate) → IsBlock cs self.now → set ≤ set_of (λ c. true) cs → members result cs ≡ narrowed 0 args.now (members set cs) }
        ensures within { result ≤ set }
    {
        let mut stay = set;
        for (index, arg) in args.iter().enumerate() {
            stay = self.parameter_sets[index].narrowed(*arg, stay);
        }
        stay
    }
}

/// The functions of one name and number of parameters.
#[derive(Debug, Drop)]
pub(crate) struct Group {
    blocks: Vec<Block>,
}

impl Group {
    /// No functions. It has room for one block.
    pub(crate) fn new(alloc: Global) -> Result<Group, AllocError>
        ensures { IfOk result (λ group. group.blocks.items ≡ []) }
    {
        Ok(Group {
            blocks: Vec::with_capacity(alloc, 1)?,
        })
    }

    /// The blocks, in the order of their functions.
    pub(crate) fn blocks(&self) -> &[Block]
        ensures { result.now ≡ self.now.blocks.items }
    {
        &self.blocks
    }

    /// Puts a function after the others. Without memory for it the functions stay the same.
    pub(crate) fn push(
        &mut self,
        alloc: Global,
        number: u32,
        kinds: &[ArgKind],
    ) -> Result<(), AllocError>
        requires { (cs : Seq Candidate) × AreBlocks (length kinds.now) cs self.old.blocks.items }
        ensures ok { OnOk result ((cs : Seq Candidate) → AreBlocks (length kinds.now) cs self.old.blocks.items → AreBlocks (length kinds.now) (cs ++ (number, kinds.now) ∷ []) self.new.blocks.items) }
        ensures err { OnErr result ((cs : Seq Candidate) → AreBlocks (length kinds.now) cs self.old.blocks.items → AreBlocks (length kinds.now) cs self.new.blocks.items) }
    {
        let count = self.blocks.len();
        if count > 0 && !self.blocks[count - 1].is_full() {
            return self.blocks[count - 1].push(number, kinds);
        }
        let mut block = Block::new(alloc, kinds.len())?;
        block.push(number, kinds)?;
        self.blocks.push(block)?;
        Ok(())
    }
}
