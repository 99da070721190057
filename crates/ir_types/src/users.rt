//! Notes of the types that wait for a part.
ghost use Rattle.std.specs.Prelude.{◌≡◌, ℕ, ◌<◌, None, OnOk, length};
ghost use Rattle.ir_types.specs.IrType.{parts};
ghost use Rattle.ir_types.specs.Standing.{Has, HasAll, laid, users_of};

use crate::extent::extent_at;
use crate::ir_type::IrType;
use crate::standing::Standing;
use attr_ids::{NoMemory, Offsets};
use std::alloc::Global;

/// Makes room for the types that wait for a part.
fn make_room(alloc: Global, users: &mut Vec<Offsets>, part: usize) -> Result<(), NoMemory>
    ensures kept { HasAll users.old.items users.new.items }
    ensures room { OnOk result (part < length users.new.items) }
{
    'room: while users.len() <= part {
        users.push(Offsets::new(alloc))?;
    }
    Ok(())
}

/// Notes that a type waits for a part. The last one noted is not noted again.
fn note_user(
    alloc: Global,
    users: &mut Vec<Offsets>,
    part: usize,
    user: u32,
) -> Result<(), NoMemory>
    ensures kept { HasAll users.old.items users.new.items }
    ensures noted { OnOk result (Has (users_of users.new.items part) user) }
{
    make_room(alloc, users, part)?;
    if users[part].as_slice().last().copied() == Some(user) {
        return Ok(());
    }
    let waiting = &mut users[part];
    waiting.push(user)?;
    Ok(())
}

/// Notes that a type waits for those of its parts that are not laid out. After an error some of
/// these notes may stand already, which does no harm.
pub fn note_users(
    alloc: Global,
    users: &mut Vec<Offsets>,
    ty: &IrType,
    standings: &[Standing],
    user: u32,
) -> Result<(), NoMemory>
    ensures kept { HasAll users.old.items users.new.items }
    ensures noted { OnOk result ((part : ℕ) → Has (parts ty.now) part → laid standings.now part ≡ None →
        Has (users_of users.new.items part) user) }
{
    for at in 0..ty.part_count() {
        let part = ty.part_at(at);
        if extent_at(standings, part).is_none() {
            note_user(alloc, users, part, user)?;
        }
    }
    Ok(())
}
