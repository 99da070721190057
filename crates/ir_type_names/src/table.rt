//! The numbers of types.
ghost use Rattle.std.specs.Prelude.{◌≡◌, ◌+◌, ◌∷◌, List, ℕ, IfOk, OnOk};
ghost use Rattle.ir_type_uses.specs.Uses.{listed};
ghost use Rattle.ir_type_uses.specs.Written.{written};
ghost use Rattle.ir_type_names.specs.Reading.{reading};
ghost use Rattle.ir_type_names.specs.Numbers as spec;
ghost use Rattle.ir_type_names.specs.Tables.{table, IsTaken, AreTaken, IsPut};

use crate::keys::{Key, PACKED, STRUCT, array_key, bit_key, int_key, struct_key};
use crate::source::{Source, is_definition, more, named, narrow};
use attr_ids::{NoMemory, TypeId};
use indexmap::IndexSet;
use ir_tree::{Entity, Ty};
use ir_type_uses::TypeUse;
use std::alloc::Global;

/// The numbers of a module's types: 0 for `void`, 1 for `ptr`, then the named types in the order of their definitions,
/// then every other type by its place among those.
#[derive(Drop)]
pub struct TypeIds<'a> {
    pub(crate) source: Source<'a>,
    /// The number of the first unnamed type.
    pub(crate) first: u32,
    /// What each unnamed type is known by.
    pub(crate) keys: IndexSet<Key>,
}

/// The number of the unnamed type at a place among them.
fn number_at(first: u32, place: usize) -> Result<u32, NoMemory>
    ensures { IfOk result (λ n. n ≡ first + place) }
{
    more(first, narrow(place)?)
}

impl<'a> TypeIds<'a> {
    /// The number of the unnamed type that is known by a key, and 0 where there is none.
    pub(crate) fn place(&self, key: &Key) -> Result<u32, NoMemory>
        ensures { IfOk result (λ n. n ≡ spec.place (table self.now).first (table self.now).keys key.now.items) }
    {
        match self.keys.get_index_of(key) {
            Some(place) => number_at(self.first, place),
            None => Ok(0),
        }
    }

    /// What a struct of these parts is known by.
    #[cycle(numbering)]
    fn parts_key(&self, alloc: Global, kind: u64, parts: &[Ty]) -> Result<Key, NoMemory>
        ensures { IfOk result (λ key. key.items ≡ kind ∷ spec.type_ids (table self.now) parts.now) }
    {
        let mut key = struct_key(alloc, kind)?;
        for part in parts {
            key.push(self.number(alloc, part)? as u64)?;
        }
        Ok(key)
    }

    /// The number of a type.
    #[cycle(numbering)]
    #[tactic(auto, using(crate::proofs::Trees::type_equations))]
    pub(crate) fn number(&self, alloc: Global, ty: &Ty) -> Result<u32, NoMemory>
        ensures { IfOk result (λ n. n ≡ spec.type_id (table self.now) ty.now) }
    {
        match ty {
            Ty::Void(_) => Ok(0),
            Ty::Ptr(_) => Ok(1),
            Ty::Named(name) => Ok(named(&self.source, *name)),
            Ty::Int(at) => self.place(&int_key(alloc, &self.source, *at)?),
            Ty::Array { count, elem, .. } => {
                let elem = self.number(alloc, elem.get())?;
                self.place(&array_key(alloc, &self.source, *count, elem)?)
            }
            Ty::Struct { parts, .. } => {
                self.place(&self.parts_key(alloc, STRUCT, parts.as_slice())?)
            }
            Ty::Packed { parts, .. } => {
                self.place(&self.parts_key(alloc, PACKED, parts.as_slice())?)
            }
        }
    }

    /// The number of a type of the tree. It takes as long as the type is large.
    pub fn id(&self, alloc: Global, ty: &Ty) -> Result<TypeId, NoMemory>
        ensures { IfOk result (λ id. id.0 ≡ spec.type_id (table self.now) ty.now) }
    {
        Ok(TypeId(self.number(alloc, ty)?))
    }

    /// The number of i1, the type of comparisons, which each table has.
    pub fn bit(&self, alloc: Global) -> Result<TypeId, NoMemory>
        ensures { IfOk result (λ id. id.0 ≡ spec.bit (table self.now)) }
    {
        Ok(TypeId(self.place(&bit_key(alloc)?)?))
    }

    /// Takes in the unnamed type that is known by a key, if it is new, and answers its number.
    fn put(&mut self, key: Key) -> Result<u32, NoMemory>
        ensures { IfOk result (λ n. IsPut (table self.old) key.items (table self.new) n) }
    {
        let (place, _) = self.keys.insert_full(key)?;
        number_at(self.first, place)
    }

    /// Takes in the parts of a struct, and answers what it is known by.
    #[cycle(taking)]
    fn take_parts(&mut self, alloc: Global, kind: u64, parts: &[Ty]) -> Result<Key, NoMemory>
        ensures { IfOk result (λ key. AreTaken (table self.old) kind parts.now (table self.new) key.items) }
    {
        let mut key = struct_key(alloc, kind)?;
        for part in parts {
            key.push(self.take(alloc, part)? as u64)?;
        }
        Ok(key)
    }

    /// Takes in a type, its parts before it, and answers its number, which stays.
    #[cycle(taking)]
    fn take(&mut self, alloc: Global, ty: &Ty) -> Result<u32, NoMemory>
        ensures { IfOk result (λ n. IsTaken (table self.old) ty.now (table self.new) n) }
    {
        match ty {
            Ty::Void(_) => Ok(0),
            Ty::Ptr(_) => Ok(1),
            Ty::Named(name) => Ok(named(&self.source, *name)),
            Ty::Int(at) => {
                let key = int_key(alloc, &self.source, *at)?;
                self.put(key)
            }
            Ty::Array { count, elem, .. } => {
                let elem = self.take(alloc, elem.get())?;
                let key = array_key(alloc, &self.source, *count, elem)?;
                self.put(key)
            }
            Ty::Struct { parts, .. } => {
                let key = self.take_parts(alloc, STRUCT, parts.as_slice())?;
                self.put(key)
            }
            Ty::Packed { parts, .. } => {
                let key = self.take_parts(alloc, PACKED, parts.as_slice())?;
                self.put(key)
            }
        }
    }
}

/// How many types have names.
fn named_count(entities: &[Entity]) -> Result<u32, NoMemory>
    ensures { IfOk result (λ n. n ≡ spec.named_count entities.now) }
{
    let mut count = 0;
    for entity in entities {
        count = more(count, is_definition(entity))?;
    }
    Ok(count)
}

/// Takes in the types that are written.
fn take_all(ids: &mut TypeIds<'_>, alloc: Global, uses: &[TypeUse<'_>]) -> Result<(), NoMemory>
    ensures { OnOk result (table ids.new ≡ spec.with_all (table ids.old) (spec.with_parts (listed uses.now))) }
{
    for u in uses {
        ids.take(alloc, u.ty)?;
    }
    Ok(())
}

/// The numbers of the types of a module, which writes these types, among the names of `source`: where the numbers of the
/// named types count from 2.
pub fn type_ids<'a>(
    alloc: Global,
    source: Source<'a>,
    entities: &[Entity],
    uses: &[TypeUse<'_>],
) -> Result<TypeIds<'a>, NoMemory>
    requires { listed uses.now ≡ written entities.now }
    ensures { IfOk result (λ ids. table ids ≡ spec.table_of (reading source.entry) entities.now) }
{
    let first = more(2, named_count(entities)?)?;
    let mut ids = TypeIds {
        source,
        first,
        keys: IndexSet::new(alloc),
    };
    take_all(&mut ids, alloc, uses)?;
    ids.put(bit_key(alloc)?)?;
    Ok(ids)
}
