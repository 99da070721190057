//! Whether a module is well formed. Each table is gone through once, and each number that a thing names is looked up
//! once, so the time is linear in the module.
ghost use Rattle.std.specs.Prelude.{◌≡◌, ◌<◌, ◌↔◌, ◌^◌, length, IsTrue};
ghost use Rattle.ir_module.specs.WellFormed.{Each, HasFew, IsTypeFormed, IsPartFormed, IsGlobalFormed, IsFuncFormed};
ghost use Rattle.ir_module.specs.WellFormed.{IsBlockFormed, IsSegFormed, IsValueFormed, IsWellFormed};

use crate::few::has_few;
use crate::formed_body::{are_blocks_formed, are_segs_formed, are_values_formed};
use crate::formed_data::{
    are_funcs_formed, are_globals_formed, are_parts_formed, are_types_formed,
};
use crate::module::Module;

/// Whether a module's sizes are as they should be.
fn has_formed_sizes(m: &Module) -> bool
    ensures { IsTrue result ↔ (HasFew m.now × (length m.now.type_at ≡ length m.now.types)) }
{
    has_few(m) && m.type_at.len() == m.types.len()
}

/// Whether a module's types, constants and globals are as they should be.
fn has_formed_data(m: &Module) -> bool
    ensures { IsTrue result ↔ (Each m.now.types (IsTypeFormed m.now) × Each m.now.parts (IsPartFormed m.now)
        × Each m.now.globals (λ g global. IsGlobalFormed m.now global)) }
{
    are_types_formed(m) && are_parts_formed(m) && are_globals_formed(m)
}

/// Whether a module's functions, blocks, segments and values are as they should be.
fn has_formed_bodies(m: &Module) -> bool
    requires { length m.now.blocks < 2 ^ 31 }
    ensures { IsTrue result ↔ (Each m.now.funcs (IsFuncFormed m.now) × Each m.now.blocks (IsBlockFormed m.now)
        × Each m.now.segs (IsSegFormed m.now) × Each m.now.values (IsValueFormed m.now)) }
{
    are_funcs_formed(m) && are_blocks_formed(m) && are_segs_formed(m) && are_values_formed(m)
}

/// Whether a module is well formed: each number names a thing that is there and that names it back, and blocks,
/// segments and instructions stand in order.
pub fn is_well_formed(m: &Module) -> bool
    ensures { IsTrue result ↔ IsWellFormed m.now }
{
    has_formed_sizes(m) && has_formed_data(m) && has_formed_bodies(m)
}
