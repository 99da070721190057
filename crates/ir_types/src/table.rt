ghost use Rattle.std.specs.Prelude.{◌≡◌, ◌+◌, ◌^◌, ◌<◌, ◌∷◌, ◌++◌, [], length, slice_get, IfOk, OnOk, OnErr, Some, IsSomeAnd};

use crate::extent::{extent_at, start_of};
use crate::ir_type::IrType;
use crate::placing::MAX_SIZE;
use crate::refusal::TypeRefusal;
use crate::standing::{Extent, Standing};
use crate::users::note_users;
use crate::visit::visit;
use attr_ids::{NoMemory, Offsets, TypeId};
use std::alloc::Global;
use std::marker::Model;

/// Puts a type that waits at the end of both lists, or of none.
fn push_waiting(
    types: &mut Vec<IrType>,
    standings: &mut Vec<Standing>,
    t: IrType,
) -> Result<(), NoMemory>
    ensures types { OnOk result (types.new.items ≡ types.old.items ++ t ∷ []) }
    ensures standings { OnOk result (standings.new.items ≡ standings.old.items ++ Standing.Waiting 0 ∷ []) }
    ensures types_err { OnErr result (types.new.items ≡ types.old.items) }
    ensures standings_err { OnErr result (standings.new.items ≡ standings.old.items) }
{
    standings.push(Standing::Waiting { known: 0 })?;
    match types.push(t) {
        Ok(()) => Ok(()),
        Err(_) => {
            standings.pop();
            Err(NoMemory)
        }
    }
}

/// The types of a module by their numbers, which contracts see as the list of them.
#[derive(Drop)]
pub struct TypeTable {
    types: Vec<IrType>,
    standings: Vec<Standing>,
    /// For each part the types that were put in before it was laid out.
    users: Vec<Offsets>,
}

impl Model for TypeTable {
    ghost use Rattle.std.specs.Prelude.{List};
    ghost use Rattle.ir_types.specs.declared.ir_type.IrType.{IrType};

    ghost Value = { List IrType };

    ghost use Rattle.ir_types.specs.Standing.{IsKept};

    ghost view = { λ table. table.types.items };

    ghost invariant = { λ table. IsKept table.types.items table.standings.items table.users.items };
}

impl TypeTable {
    ghost use Rattle.ir_types.specs.IrType.{IsWellFormed, HasField};
    ghost use Rattle.ir_types.specs.Layout.{layout};
    ghost use Rattle.ir_types.specs.TypeTable.{IsJudged, size, alignment, field_start};

    /// A table without types. It takes no memory.
    pub fn new(alloc: Global) -> TypeTable
        ensures { result ≡ [] }
    {
        TypeTable {
            types: Vec::new(alloc),
            standings: Vec::new(alloc),
            users: Vec::new(alloc),
        }
    }

    /// How many types the table has.
    pub fn len(&self) -> usize
        ensures { result ≡ length self.now }
    {
        self.types.len()
    }

    /// A type of the table.
    pub fn get(&self, t: TypeId) -> &IrType
        requires { t.0 < length self.now }
        ensures { slice_get self.now t.0 ≡ Some result.now }
    {
        &self.types[t.0 as usize]
    }

    /// The types, each at its number.
    pub fn as_slice(&self) -> &[IrType]
        ensures { result.now ≡ self.now }
    {
        &self.types
    }

    /// Puts a type at the end, which may name types that are put in later, and itself.
    pub fn add(&mut self, alloc: Global, t: IrType) -> Result<TypeId, NoMemory>
        requires room { length self.old < 2 ^ 31 }
        requires well_formed { IsWellFormed t }
        ensures ok { IfOk result (λ id. (id.0 ≡ length self.old) × (self.new ≡ self.old ++ t ∷ [])) }
        ensures err { OnErr result (self.new ≡ self.old) }
    {
        let id = self.types.len();
        note_users(alloc, &mut self.users, &t, &self.standings, id as u32)?;
        push_waiting(&mut self.types, &mut self.standings, t)?;
        visit(&self.types, &self.users, &mut self.standings, id);
        Ok(TypeId(id as u32))
    }

    /// The bytes that a value of a type takes.
    pub fn size_of(&self, t: TypeId) -> Result<u64, TypeRefusal>
        requires { t.0 < length self.now }
        ensures { result ≡ size self.now t.0 }
    {
        let extent = self.extent(t)?;
        Ok(extent.size)
    }

    /// The alignment of a type in bytes.
    pub fn align_of(&self, t: TypeId) -> Result<u64, TypeRefusal>
        requires { t.0 < length self.now }
        ensures { result ≡ alignment self.now t.0 }
    {
        let extent = self.extent(t)?;
        Ok(extent.align)
    }

    /// How many bytes lie before a field of a struct.
    pub fn field_offset(&self, t: TypeId, i: u32) -> Result<u64, TypeRefusal>
        requires { IsSomeAnd (slice_get self.now t.0) (λ ty. HasField ty i) }
        ensures { result ≡ field_start self.now t.0 i }
    {
        let _extent = self.extent(t)?;
        let IrType::Struct { fields, packed } = &self.types[t.0 as usize] else {
            unreachable!()
        };
        match start_of(fields.as_slice(), *packed, &self.standings, i as usize) {
            Some(start) => Ok(start),
            None => unreachable!(),
        }
    }

    /// The extent of a type that has a size.
    fn extent(&self, t: TypeId) -> Result<Extent, TypeRefusal>
        requires { t.0 < length self.now }
        ensures { IsJudged (layout self.now 64 t.0) result }
    {
        let Some(extent) = extent_at(&self.standings, t.0 as usize) else {
            return Err(TypeRefusal::Deep);
        };
        if extent.size > MAX_SIZE {
            return Err(TypeRefusal::Huge);
        }
        if !extent.is_sized {
            return Err(TypeRefusal::Unsized);
        }
        Ok(extent)
    }
}
