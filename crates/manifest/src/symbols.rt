//! What is asked of a module's types and functions.
ghost use Rattle.std.specs.Prelude.{◌≡◌, slice_get};
ghost use Rattle.std.specs.Option.{option_copied, option_map};
ghost use Rattle.ir_module.specs.Calls as spec;
ghost use Rattle.manifest.specs.Ready.{IsBodyIf};

use attr_ids::{FuncId, TypeId};
use ir_module::{Module, Op};
use ir_types::IrType;

/// The type of a number, if there is one.
fn type_at<'a>(m: &'a Module, t: TypeId) -> Option<&'a IrType>
    ensures { option_copied result ≡ slice_get m.now.types t.0 }
{
    m.types.as_slice().get(t.0 as usize)
}

/// Whether both are void, both pointers, or both integers of one width.
fn are_alike(a: Option<&IrType>, b: Option<&IrType>) -> bool
    ensures { result ≡ spec.are_alike (option_copied a.entry) (option_copied b.entry) }
{
    match (a, b) {
        (Some(IrType::Void), Some(IrType::Void)) | (Some(IrType::Ptr), Some(IrType::Ptr)) => true,
        (Some(IrType::Int { width }), Some(IrType::Int { width: other })) => width == other,
        _ => false,
    }
}

/// Whether two numbers name one type, as the types of functions are told apart.
pub(crate) fn is_same_type(m: &Module, t: TypeId, u: TypeId) -> bool
    ensures { result ≡ spec.is_same_type m.now t u }
{
    t.0 == u.0 || are_alike(type_at(m, t), type_at(m, u))
}

/// Whether a call of the function runs exactly its body.
pub(crate) fn is_exact(m: &Module, f: FuncId) -> bool
    ensures { result ≡ spec.is_exact_in (slice_get m.now.funcs f.0) }
{
    match m.funcs.get(f.0 as usize) {
        Some(func) => func.block_count != 0 && !func.linkage.is_replaceable(),
        None => false,
    }
}

/// The body that an inner call runs; an outer call runs none of the module's.
pub(crate) fn inner_callee(m: &Module, op: &Op) -> Option<FuncId>
    ensures callee { option_map (λ g. g.0) result ≡ spec.inner_callee m.now op.now }
    ensures body { IsBodyIf m.now result }
{
    rule_says::inner_callee(m, op)
}
