//! Which instructions give a value.
ghost use Rattle.std.specs.Prelude.{◌≡◌, nat_eq};
ghost use Rattle.std.specs.HashSet.{contains};
ghost use Rattle.ir_scopes.specs.Results as spec;

use crate::slot::id_at;
use indexmap::IndexSet;
use ir_tree::{Instr, Ty};

/// The numbers of the names of types whose content is void.
pub type Voids = IndexSet<u32>;

/// Whether a type is void.
pub fn is_void(ids: &[u32], voids: &Voids, ty: &Ty) -> bool
    ensures { result ≡ spec.is_void ids.now (contains nat_eq voids.now) ty.now }
{
    match ty {
        Ty::Void(_) => true,
        Ty::Named(at) => voids.contains(&id_at(ids, *at)),
        _ => false,
    }
}

/// Whether an instruction gives a value: a store gives none, nor does an instruction whose type is void.
pub fn gives_result(ids: &[u32], voids: &Voids, instr: &Instr) -> bool
    ensures { result ≡ spec.gives_result ids.now (contains nat_eq voids.now) instr.now }
{
    match instr {
        Instr::Icmp(_) | Instr::Alloca(_) | Instr::GetElementPtr { .. } => true,
        Instr::Store(_) => false,
        Instr::Binop { ty, .. }
        | Instr::Phi { ty, .. }
        | Instr::Load { ty, .. }
        | Instr::Cleanup { ty, .. }
        | Instr::LandingPad { ty, .. }
        | Instr::Cast { to: ty, .. } => !is_void(ids, voids, ty),
        Instr::Select(select) => !is_void(ids, voids, &select.get().yes.ty),
        Instr::Freeze { of, .. } => !is_void(ids, voids, &of.ty),
        Instr::Call(call) => !is_void(ids, voids, &call.get().called.callee.result),
    }
}
