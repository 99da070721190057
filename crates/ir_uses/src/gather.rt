ghost use Rattle.std.specs.Prelude.{IfOk};
ghost use Rattle.ir_module.specs.WellFormed.{HasFew};
ghost use Rattle.ir_uses.specs.Uses.{AreUsesOf};

use crate::bodies::open_bodies;
use crate::callers::callers;
use crate::use_lists::Uses;
use crate::values::value_uses;
use attr_ids::NoMemory;
use ir_module::Module;
use std::alloc::Global;

/// The use lists of a module, in the time that its operands and functions take.
pub fn uses(alloc: Global, m: &Module) -> Result<Uses, NoMemory>
    requires { HasFew m.now }
    ensures { IfOk result (λ u. AreUsesOf m.now u) }
{
    let values = value_uses(alloc, m)?;
    let callers = callers(alloc, m)?;
    let bodies = open_bodies(alloc, m)?;
    Ok(Uses {
        values,
        callers,
        bodies,
    })
}
