//! Rounds of numbers.
ghost use Rattle.std.specs.Prelude.{◌≡◌, ◌<◌, ◌^◌, IfOk, OnOk, length};
ghost use Rattle.ir_type_equality.specs.Numbers as spec;

use crate::content::content;
use attr_ids::{NoMemory, Offsets, Sequence, TypeId};
use indexmap::IndexSet;
use ir_types::TypeTable;
use std::alloc::Global;

/// How many rounds may follow the first: then all types are told apart that are nested at most 64 deep.
const MORE_ROUNDS: u32 = 64;

/// Gives each type the number of its content among the contents seen, as far as the old numbers tell its parts apart.
fn round(alloc: Global, types: &TypeTable, old: &[u32]) -> Result<Vec<u32>, NoMemory>
    requires { length types.now < 2 ^ 31 }
    ensures { IfOk result (λ new. spec.IsRound types.now old.now new.items) }
{
    let mut contents: IndexSet<Vec<u64>> = IndexSet::new(alloc);
    let mut new = Vec::new(alloc);
    for t in 0..types.len() {
        let key = content(alloc, old, t as u32, types.get(TypeId(t as u32)))?;
        let (number, _) = contents.insert_full(key)?;
        new.push(number as u32)?;
    }
    Ok(new)
}

/// Canonical numbers of the types of a table. Each round looks at each type and at each part of it once, and there are
/// as many rounds as types are nested deep, 65 at most.
pub fn canonical(alloc: Global, types: &TypeTable) -> Result<Offsets, NoMemory>
    requires { length types.now < 2 ^ 31 }
    ensures { IfOk result (λ numbers. spec.AreCanonical types.now numbers) }
{
    let mut numbers = round(alloc, types, &[])?;
    for _ in 0..MORE_ROUNDS {
        let next = round(alloc, types, &numbers)?;
        if next == numbers {
            return Ok(Sequence::from_vec(numbers));
        }
        numbers = next;
    }
    Ok(Sequence::from_vec(numbers))
}
