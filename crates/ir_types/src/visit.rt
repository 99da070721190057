//! Laying out types whose parts were put into the table later.
ghost use Rattle.std.specs.Prelude.{◌≡◌, ℕ, ◌+◌, ◌<◌, ◌≤◌, None, Some, List, Option, IfSome, ◌∷◌, length, slice_get, IsTrue};
ghost use Rattle.ir_types.specs.IrType.{parts};
ghost use Rattle.ir_types.specs.Layout.{Layout, laid_out};
ghost use Rattle.ir_types.specs.Standing.{Agrees, AreSound, AreSettledBut, AreWaiting, Grows, IsBlocked, Shows, extent_of, laid, open_count, users_of};

use crate::extent::{part_extent, type_extent};
use crate::ir_type::IrType;
use crate::standing::{Extent, Standing};
use attr_ids::Offsets;

/// The first part from `from` on that is not laid out or is as deep as a type may be, or the number
/// of parts. The search for the next one begins where this one ended, also if the part found is too
/// deep and so is in the way for ever: no part is looked at twice.
fn first_blocking(ty: &IrType, standings: &[Standing], from: usize) -> usize
    ensures { (part : ℕ) (e : Extent) → slice_get (parts ty.now) result ≡ Some part → laid standings.now part ≡ Some e → 64 ≤ e.nesting }
{
    let count = ty.part_count();
    for at in from..count {
        if part_extent(standings, ty.part_at(at)).is_none() {
            return at;
        }
    }
    count
}

/// What is to be kept of a type whose first `known` parts are not in the way.
fn standing_of(ty: &IrType, standings: &[Standing], known: usize) -> Standing
    ensures laid { IfSome (extent_of result) (λ e. (of : ℕ → Option Layout) → Agrees of standings.now →
        (l : Layout) × (laid_out of ty.now ≡ Some l) × Shows l e) }
    ensures waits { extent_of result ≡ None → IsBlocked standings.now ty.now }
{
    let known = first_blocking(ty, standings, known);
    if known < ty.part_count() {
        return Standing::Waiting { known };
    }
    match type_extent(ty, standings) {
        Some(extent) => Standing::Laid(extent),
        // Nothing is in the way, so this does not happen.
        None => Standing::Waiting { known },
    }
}

/// Lays out a type that waits, if its parts allow it now. Answers whether it did.
fn settle(types: &[IrType], standings: &mut [Standing], t: usize) -> bool
    requires long { length standings.old ≡ length types.now }
    requires within { t < length types.now }
    requires sound { AreSound types.now standings.old }
    ensures sound { AreSound types.now standings.new }
    ensures others { (u : ℕ) → (u ≡ t → ⊥) → laid standings.new u ≡ laid standings.old u }
    ensures laid { IsTrue result → laid standings.old t ≡ None }
    ensures fewer { IsTrue result → open_count standings.new < open_count standings.old }
    ensures same { ¬ IsTrue result → laid standings.new t ≡ laid standings.old t }
    ensures count { ¬ IsTrue result → open_count standings.new ≡ open_count standings.old }
    ensures settled { (ty : IrType) → slice_get types.now t ≡ Some ty → laid standings.new t ≡ None → IsBlocked standings.new ty }
{
    let Standing::Waiting { known } = standings[t] else {
        return false;
    };
    let standing = standing_of(&types[t], standings, known);
    standings[t] = standing;
    matches!(standing, Standing::Laid(_))
}

/// The types that wait for a part.
pub fn users_at(users: &[Offsets], part: usize) -> &[u32]
    ensures { result.now ≡ users_of users.now part }
{
    match users.get(part) {
        Some(waiting) => waiting.as_slice(),
        None => &[],
    }
}

/// Lays out a type if it can be laid out now, and then the types that wait for it in turn. Each turn
/// lies deeper, so there are at most 64 of them at once. A number that no type of the table has is
/// passed over: a refused `add` may have left one.
pub fn visit(types: &[IrType], users: &[Offsets], standings: &mut [Standing], t: usize)
    requires long { length standings.old ≡ length types.now }
    requires sound { AreSound types.now standings.old }
    requires waiting { AreWaiting users.now types.now standings.old }
    ensures sound { AreSound types.now standings.new }
    ensures grows { Grows standings.old standings.new }
    ensures fewer { open_count standings.new ≤ open_count standings.old }
    ensures settled { (pending : List ℕ) → AreSettledBut (t ∷ pending) types.now standings.old →
        AreSettledBut pending types.now standings.new }
{
    if t >= types.len() {
        return;
    }
    if !settle(types, standings, t) {
        return;
    }
    for user in users_at(users, t) {
        visit(types, users, standings, *user as usize);
    }
}
