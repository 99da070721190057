//! The things that have names, one after another as they are written, and how many of each kind there are.
ghost use Rattle.std.specs.Prelude.{◌≡◌, slice_index, IfOk};
ghost use Rattle.ir_scopes.specs.Scopes as spec;

use attr_ids::{BlockId, FuncId, GlobalId, NoMemory, TypeId, ValueId};
use ir_tree::Leaf;

/// What kind of thing a name stands for.
#[derive(Clone, Copy, PartialEq, Eq)]
pub enum Kind {
    Value,
    Block,
    Global,
    Func,
    Type,
    Group,
}

/// A place at which a thing is defined, and the token of its name, where one is written.
#[derive(Clone, Copy)]
pub struct Slot {
    pub kind: Kind,
    pub written: Option<Leaf>,
}

/// What a name stands for. A group is known by its place among the groups, from 0.
#[derive(Clone, Copy, PartialEq, Eq)]
pub enum Entry {
    Value(ValueId),
    Block(BlockId),
    Global(GlobalId),
    Func(FuncId),
    Type(TypeId),
    Group(u32),
}

/// How many things of each kind come before, which is the number of the next one, and the counter of the LangRef.
#[derive(Clone, Copy)]
pub struct Counts {
    pub values: u32,
    pub blocks: u32,
    pub globals: u32,
    pub funcs: u32,
    pub types: u32,
    pub groups: u32,
    /// The number of the next thing of a body without a name.
    pub counter: u32,
}

/// What the next thing of a kind is known by.
pub(crate) fn entry_of(counts: Counts, kind: Kind) -> Entry
    ensures { result ≡ spec.entry_of counts kind }
{
    match kind {
        Kind::Value => Entry::Value(ValueId(counts.values)),
        Kind::Block => Entry::Block(BlockId(counts.blocks)),
        Kind::Global => Entry::Global(GlobalId(counts.globals)),
        Kind::Func => Entry::Func(FuncId(counts.funcs)),
        Kind::Type => Entry::Type(TypeId(counts.types)),
        Kind::Group => Entry::Group(counts.groups),
    }
}

/// One more. No text has so many things that their number does not fit.
fn one_more(count: u32) -> Result<u32, NoMemory>
    ensures { IfOk result (λ more. more ≡ spec.one_more count) }
{
    count.checked_add(1).ok_or(NoMemory)
}

/// The counts with one more of a kind.
fn raised(counts: Counts, kind: Kind) -> Result<Counts, NoMemory>
    ensures { IfOk result (λ raised. raised ≡ spec.raised kind counts) }
{
    let mut more = counts;
    match kind {
        Kind::Value => more.values = one_more(counts.values)?,
        Kind::Block => more.blocks = one_more(counts.blocks)?,
        Kind::Global => more.globals = one_more(counts.globals)?,
        Kind::Func => more.funcs = one_more(counts.funcs)?,
        Kind::Type => more.types = one_more(counts.types)?,
        Kind::Group => more.groups = one_more(counts.groups)?,
    }
    Ok(more)
}

/// The number of the name that is written at a token.
pub fn id_at(ids: &[u32], at: Leaf) -> u32
    ensures { result ≡ slice_index ids.now at }
{
    let at = at as usize;
    if at < ids.len() { ids[at] } else { 0 }
}

/// The number of the name of a thing: of the one that is written, or of the number that the counter has.
pub(crate) fn name_in(ids: &[u32], counter: u32, written: Option<Leaf>) -> Result<u32, NoMemory>
    ensures { IfOk result (λ id. id ≡ spec.name_in ids.now counter written) }
{
    match written {
        Some(at) => Ok(id_at(ids, at)),
        None => counter.checked_mul(2).ok_or(NoMemory),
    }
}

/// The counter behind a name.
fn behind(counter: u32, id: u32) -> u32
    ensures { result ≡ spec.behind counter id }
{
    if id % 2 == 0 {
        counter.max(id / 2 + 1)
    } else {
        counter
    }
}

/// The counts behind a thing with a name.
pub(crate) fn counted(counts: Counts, kind: Kind, id: u32) -> Result<Counts, NoMemory>
    ensures { IfOk result (λ behind. behind ≡ spec.counted_as counts kind id) }
{
    let mut more = raised(counts, kind)?;
    more.counter = behind(counts.counter, id);
    Ok(more)
}
