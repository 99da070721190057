//! Which bodies the outside may enter.
ghost use Rattle.std.specs.Prelude.{◌≡◌, ◌<◌, ℕ, Bool, false, length, slice_get, Some, IfOk};
ghost use Rattle.ir_module.specs.WellFormed.{HasFew};
ghost use Rattle.ir_module.specs.declared.module.Func.{Func};
ghost use Rattle.ir_module.specs.Calls.{is_open, is_open_in};

use crate::taken::mark_taken;
use attr_ids::{NoMemory, Sequence};
use ir_module::{Func, Module};
use std::alloc::Global;

/// Whether a function is an open body, by its header and whether its address is taken.
fn is_open(func: &Func, taken: bool) -> bool
    ensures { result ≡ is_open_in taken (Some func.now) }
{
    func.block_count != 0 && (func.linkage.is_visible() || taken)
}

/// Makes of each flag, which says whether a function's address is taken, whether it is an open body.
fn settle(funcs: &[Func], flags: &mut [bool])
    requires { length flags.old ≡ length funcs.now }
    ensures { (f : ℕ) (func : Func) (taken : Bool) → slice_get funcs.now f ≡ Some func → slice_get flags.old f ≡ Some taken
        → slice_get flags.new f ≡ Some (is_open_in taken (Some func)) }
{
    for (f, func) in funcs.iter().enumerate() {
        flags[f] = is_open(func, flags[f]);
    }
}

/// Raises the flags of the open bodies.
fn mark_open(m: &Module, flags: &mut [bool])
    requires few { HasFew m.now }
    requires long { length flags.old ≡ length m.now.funcs }
    requires lowered { (f : ℕ) → f < length m.now.funcs → slice_get flags.old f ≡ Some false }
    ensures { (f : ℕ) → f < length m.now.funcs → slice_get flags.new f ≡ Some (is_open m.now f) }
{
    mark_taken(m, flags);
    settle(m.funcs.as_slice(), flags);
}

/// For each function, whether it is an open body.
pub(crate) fn open_bodies(alloc: Global, m: &Module) -> Result<Sequence<bool>, NoMemory>
    requires { HasFew m.now }
    ensures { IfOk result (λ bodies. (f : ℕ) → f < length m.now.funcs → slice_get bodies f ≡ Some (is_open m.now f)) }
{
    let mut flags = vec![in alloc; false; m.funcs.len()]?;
    mark_open(m, &mut flags);
    Ok(Sequence::from_vec(flags))
}
