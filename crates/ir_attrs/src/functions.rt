//! Attributes of functions and calls, with those of their groups (LangRef, "Function Attributes", "Attribute Groups").
ghost use Rattle.std.specs.Prelude.{◌≡◌, ◌∷◌, ◌++◌, [], ℕ, List, Option, IfOk, slice_index};
ghost use Rattle.std.specs.List.{flat_map};
ghost use Rattle.ir_attrs.specs.Functions as spec;
ghost use Rattle.ir_attrs.specs.Attributes.{group_attr, group_attrs, own_attr, own_attrs};
ghost use Rattle.ir_attrs.specs.Latest.{later};
ghost use Rattle.ir_attrs.specs.Groups as table;

use crate::attributes::{inside_of, is_attr};
use crate::memory::memory_of;
use attr_ids::NoMemory;
use indexmap::IndexMap;
use ir_module::{FuncAttrs, MemoryAttr};
use ir_token::Token;
use ir_tree::{Entity, Fattr, Gattr, Leaf, Word};
use std::alloc::Global;

/// What attributes say together, so far.
#[derive(Clone, Copy)]
pub struct Gathered {
    pub attrs: FuncAttrs,
    /// Whether one of the attributes stands there that `memory` took the place of.
    pub former: bool,
}

/// What the attributes of each group say, by the number of its name.
pub type Groups = IndexMap<u32, Gathered>;

/// What an attribute says of memory, where it is a `memory`.
fn memory_says(
    alloc: Global,
    text: &[u8],
    toks: &[Token],
    attr: &Fattr,
) -> Result<Option<MemoryAttr>, NoMemory>
    ensures { IfOk result (λ said. said ≡ spec.memory_says text.now toks.now attr.now) }
{
    if is_attr(text, toks, b"memory", attr) {
        let said = memory_of(alloc, text, toks, inside_of(attr))?;
        Ok(Some(said))
    } else {
        Ok(None)
    }
}

/// Whether an attribute is one that `memory` took the place of.
fn is_former(text: &[u8], toks: &[Token], attr: &Fattr) -> bool
    ensures { result ≡ spec.is_former text.now toks.now attr.now }
{
    is_attr(text, toks, b"readnone", attr)
        || is_attr(text, toks, b"readonly", attr)
        || is_attr(text, toks, b"writeonly", attr)
        || is_attr(text, toks, b"argmemonly", attr)
        || is_attr(text, toks, b"inaccessiblememonly", attr)
        || is_attr(text, toks, b"inaccessiblemem_or_argmemonly", attr)
}

fn later_memory(old: Option<MemoryAttr>, new: Option<MemoryAttr>) -> Option<MemoryAttr>
    ensures { result ≡ later old new }
{
    match new {
        Some(new) => Some(new),
        None => old,
    }
}

/// What no attribute says.
fn nothing() -> Gathered
    ensures { (b : List ℕ) (toks : List Token) → result ≡ spec.gathered b toks [] }
{
    Gathered {
        attrs: FuncAttrs {
            nounwind: false,
            noreturn: false,
            nofree: false,
            norecurse: false,
            nocallback: false,
            memory: None,
        },
        former: false,
    }
}

/// What attributes say with one more behind them.
fn with_attr(
    alloc: Global,
    text: &[u8],
    toks: &[Token],
    old: Gathered,
    attr: &Fattr,
) -> Result<Gathered, NoMemory>
    ensures { IfOk result (λ said. said ≡ spec.with_attr text.now toks.now old attr.now) }
{
    let memory = memory_says(alloc, text, toks, attr)?;
    Ok(Gathered {
        attrs: FuncAttrs {
            nounwind: old.attrs.nounwind | is_attr(text, toks, b"nounwind", attr),
            noreturn: old.attrs.noreturn | is_attr(text, toks, b"noreturn", attr),
            nofree: old.attrs.nofree | is_attr(text, toks, b"nofree", attr),
            norecurse: old.attrs.norecurse | is_attr(text, toks, b"norecurse", attr),
            nocallback: old.attrs.nocallback | is_attr(text, toks, b"nocallback", attr),
            memory: later_memory(old.attrs.memory, memory),
        },
        former: old.former | is_former(text, toks, attr),
    })
}

/// What attributes say with more behind them.
fn merged(old: Gathered, new: Gathered) -> Gathered
    ensures { result ≡ spec.merged old new }
{
    Gathered {
        attrs: FuncAttrs {
            nounwind: old.attrs.nounwind | new.attrs.nounwind,
            noreturn: old.attrs.noreturn | new.attrs.noreturn,
            nofree: old.attrs.nofree | new.attrs.nofree,
            norecurse: old.attrs.norecurse | new.attrs.norecurse,
            nocallback: old.attrs.nocallback | new.attrs.nocallback,
            memory: later_memory(old.attrs.memory, new.attrs.memory),
        },
        former: old.former | new.former,
    }
}

/// What attributes say with one of a group behind them.
fn with_group_attr(
    alloc: Global,
    text: &[u8],
    toks: &[Token],
    old: Gathered,
    attr: &Gattr,
) -> Result<Gathered, NoMemory>
    ensures { IfOk result (λ said. (before : List Fattr) → old ≡ spec.gathered text.now toks.now before →
        said ≡ spec.gathered text.now toks.now (before ++ group_attr attr.now)) }
{
    match attr {
        Gattr::Word { word, .. } => {
            let attr = Fattr::Word(*word);
            with_attr(alloc, text, toks, old, &attr)
        }
        Gattr::Align { .. } => Ok(old),
        Gattr::Fattr(attr) => with_attr(alloc, text, toks, old, attr),
    }
}

/// What the attributes of a group say.
fn group_said(
    alloc: Global,
    text: &[u8],
    toks: &[Token],
    attrs: &[Gattr],
) -> Result<Gathered, NoMemory>
    ensures { IfOk result (λ said. said ≡ spec.gathered text.now toks.now (group_attrs attrs.now)) }
{
    let mut said = nothing();
    for attr in attrs {
        said = with_group_attr(alloc, text, toks, said, attr)?;
    }
    Ok(said)
}

/// The number of the name of a leaf, and 0 where it has none.
fn name_of(ids: &[u32], leaf: Leaf) -> u32
    ensures { result ≡ slice_index ids.now leaf }
{
    let at = leaf as usize;
    if at < ids.len() { ids[at] } else { 0 }
}

/// Enters what a group says, where its name has nothing yet.
fn enter_group(
    alloc: Global,
    text: &[u8],
    toks: &[Token],
    groups: &mut Groups,
    name: u32,
    attrs: &[Gattr],
) -> Result<(), NoMemory>
    ensures { IfOk result (λ _. (ids : List ℕ) (before : List Entity) (group : ℕ) → name ≡ slice_index ids group →
        table.Knows text.now toks.now ids before groups.old →
        table.Knows text.now toks.now ids (before ++ Entity.Attributes group attrs.now ∷ []) groups.new) }
{
    if let Some(_) = groups.get(&name) {
        return Ok(());
    }
    let said = group_said(alloc, text, toks, attrs)?;
    groups.insert(name, said)?;
    Ok(())
}

/// Enters what an entity says of a group, where its name has nothing yet.
fn enter(
    alloc: Global,
    text: &[u8],
    toks: &[Token],
    ids: &[u32],
    groups: &mut Groups,
    entity: &Entity,
) -> Result<(), NoMemory>
    ensures { IfOk result (λ _. (before : List Entity) → table.Knows text.now toks.now ids.now before groups.old →
        table.Knows text.now toks.now ids.now (before ++ entity.now ∷ []) groups.new) }
{
    match entity {
        Entity::Attributes { group, words } => {
            enter_group(
                alloc,
                text,
                toks,
                groups,
                name_of(ids, *group),
                words.as_slice(),
            )
        }
        _ => Ok(()),
    }
}

/// What the attributes of each group of a module say; `ids` has the numbers of the names of the tokens. Of two groups of
/// one name the first counts.
pub fn groups(
    alloc: Global,
    text: &[u8],
    toks: &[Token],
    ids: &[u32],
    entities: &[Entity],
) -> Result<Groups, NoMemory>
    ensures { IfOk result (λ groups. table.Knows text.now toks.now ids.now entities.now groups) }
{
    let mut groups = IndexMap::new(alloc);
    for entity in entities {
        enter(alloc, text, toks, ids, &mut groups, entity)?;
    }
    Ok(groups)
}

/// What attributes say with one behind them that is written at the place itself.
fn with_own(
    alloc: Global,
    text: &[u8],
    toks: &[Token],
    old: Gathered,
    word: &Word,
) -> Result<Gathered, NoMemory>
    ensures { IfOk result (λ said. (before : List Fattr) → old ≡ spec.gathered text.now toks.now before →
        said ≡ spec.gathered text.now toks.now (before ++ own_attr word.now)) }
{
    match word {
        Word::Fattr(attr) => with_attr(alloc, text, toks, old, attr),
        Word::Group(_) => Ok(old),
    }
}

/// What attributes say with those of a group behind them.
fn with_named(ids: &[u32], groups: &Groups, old: Gathered, word: &Word) -> Gathered
    ensures { (b : List ℕ) (toks : List Token) (entities : List Entity) (before : List Fattr) → table.Knows b toks ids.now entities groups.now →
        old ≡ spec.gathered b toks before → result ≡ spec.gathered b toks (before ++ spec.named_attrs ids.now (spec.group_in ids.now entities) word.now) }
{
    match word {
        Word::Fattr(_) => old,
        Word::Group(group) => match groups.get(&name_of(ids, *group)) {
            Some(said) => merged(old, *said),
            None => old,
        },
    }
}

/// What the attributes say that are written at a place themselves.
fn own_said(
    alloc: Global,
    text: &[u8],
    toks: &[Token],
    words: &[Word],
) -> Result<Gathered, NoMemory>
    ensures { IfOk result (λ said. said ≡ spec.gathered text.now toks.now (own_attrs words.now)) }
{
    let mut said = nothing();
    for word in words {
        said = with_own(alloc, text, toks, said, word)?;
    }
    Ok(said)
}

/// What these attributes say with those of the groups behind them.
fn with_groups(ids: &[u32], groups: &Groups, own: Gathered, words: &[Word]) -> Gathered
    ensures { (b : List ℕ) (toks : List Token) (entities : List Entity) (before : List Fattr) → table.Knows b toks ids.now entities groups.now →
        own ≡ spec.gathered b toks before →
        result ≡ spec.gathered b toks (before ++ flat_map (spec.named_attrs ids.now (spec.group_in ids.now entities)) words.now) }
{
    let mut said = own;
    for word in words {
        said = with_named(ids, groups, said, word);
    }
    said
}

/// Where one of the former attributes stands, a `memory` that permits everything is the last.
fn settled(said: Gathered) -> FuncAttrs
    ensures { result ≡ spec.settled said }
{
    if said.former {
        FuncAttrs {
            memory: Some(MemoryAttr {
                other: 3,
                argmem: 3,
                inaccessible: 3,
            }),
            ..said.attrs
        }
    } else {
        said.attrs
    }
}

/// The attributes of a function or a call: those that are written behind its closing parenthesis, and behind them those
/// of its groups, group by group. Of several `memory` the last counts.
pub fn func_attrs(
    alloc: Global,
    text: &[u8],
    toks: &[Token],
    ids: &[u32],
    groups: &Groups,
    words: &[Word],
) -> Result<FuncAttrs, NoMemory>
    ensures { IfOk result (λ attrs. (entities : List Entity) → table.Knows text.now toks.now ids.now entities groups.now →
        attrs ≡ spec.func_attrs text.now toks.now ids.now (spec.group_in ids.now entities) words.now) }
{
    let own = own_said(alloc, text, toks, words)?;
    Ok(settled(with_groups(ids, groups, own, words)))
}
