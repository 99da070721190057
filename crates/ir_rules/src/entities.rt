//! Rules of globals, of the headers of functions, and of types.
ghost use Rattle.std.specs.Prelude.{◌≡◌, ◌==◌, ◌<◌, ◌↔◌, IsTrue, IsSome, length};
ghost use Rattle.ir_module.specs.Operands.{optional};
ghost use Rattle.ir_module.specs.Formed.{AreConstants};
ghost use Rattle.ir_module.specs.WellFormed.{Each, IsGlobalFormed, IsWellFormed};
ghost use Rattle.ir_operands.specs.Constants.{IsScalarOperand, Keeps};
ghost use Rattle.ir_operands.specs.Types.{type_of, IsScalar};
ghost use Rattle.ir_rules.specs.Entities as spec;
ghost use Rattle.ir_rules.specs.Named.{AreNamed};
ghost use Rattle.ir_rules.specs.Operations.{IsGood};
ghost use Rattle.ir_rules.specs.Values.{EachKeeps};

use crate::operations::{is_alignment, is_good};
use crate::values::{each_keeps, is_scalar_at, operand_keeps};
use ir_module::{Func, GlobalVar, Linkage, Module, Param, Written};
use ir_operands::{ConstantRule, Site, has_size, is_scalar, may_return};
use ir_types::IrType;

// ---- V3

fn is_elsewhere(linkage: Linkage) -> bool
    ensures { result ≡ spec.is_elsewhere linkage }
{
    match linkage {
        Linkage::External | Linkage::ExternWeak => true,
        _ => false,
    }
}

/// V3 of a global: whether it has an initial value exactly if its linkage is not `external` or `extern_weak`.
pub fn has_init(global: &GlobalVar) -> bool
    ensures { IsTrue result ↔ spec.HasInit global.now }
{
    if is_elsewhere(global.linkage) {
        global.init.is_none()
    } else {
        global.init.is_some()
    }
}

fn may_define(linkage: Linkage) -> bool
    ensures { result ≡ spec.may_define linkage }
{
    match linkage {
        Linkage::ExternWeak | Linkage::Common | Linkage::Appending => false,
        _ => true,
    }
}

fn may_declare(linkage: Linkage) -> bool
    ensures { result ≡ spec.may_declare linkage }
{
    match linkage {
        Linkage::Plain | Linkage::External | Linkage::ExternWeak => true,
        _ => false,
    }
}

fn is_declaration(func: &Func) -> bool
    ensures { result ≡ (func.now.block_count == 0) }
{
    func.block_count == 0
}

/// V3 of a function: whether a definition or a declaration may have its linkage.
pub fn has_linkage(func: &Func) -> bool
    ensures { IsTrue result ↔ spec.HasLinkage func.now }
{
    if is_declaration(func) {
        may_declare(func.linkage)
    } else {
        may_define(func.linkage)
    }
}

// ---- globals

/// Whether the initial value of a global, if it has one, keeps a rule of constants, with all that lies in it.
fn optional_keeps(m: &Module, numbers: &[u32], rule: ConstantRule, init: &Option<Written>) -> bool
    requires formed { IsWellFormed m.now }
    requires named { AreNamed m.now (optional init.now) }
    ensures { IsTrue result ↔ EachKeeps m.now numbers.now rule (optional init.now) }
{
    match init {
        Some(w) => operand_keeps(m, numbers, rule, w),
        None => true,
    }
}

/// V1 of a global: whether no constant getelementptr in its initial value breaks it.
pub fn is_scalar_init(m: &Module, numbers: &[u32], global: &GlobalVar) -> bool
    requires formed { IsWellFormed m.now }
    requires named { IsGlobalFormed m.now global.now }
    ensures { IsTrue result ↔ spec.IsScalarInit m.now numbers.now global.now }
{
    optional_keeps(m, numbers, ConstantRule::FreeParts, &global.init)
}

/// Whether a global with an initial value has a type with a size.
fn has_sized_init(m: &Module, global: &GlobalVar) -> bool
    requires { IsGlobalFormed m.now global.now }
    ensures { IsTrue result ↔ spec.HasSizedInit m.now.types global.now }
{
    match global.init {
        Some(_) => has_size(&m.types, global.ty),
        None => true,
    }
}

/// V2 of a global: whether its type has a size, if it has an initial value, and the constants in that keep V2.
pub fn is_sized_global(m: &Module, numbers: &[u32], global: &GlobalVar) -> bool
    requires formed { IsWellFormed m.now }
    requires named { IsGlobalFormed m.now global.now }
    ensures { IsTrue result ↔ spec.IsSizedGlobal m.now numbers.now global.now }
{
    has_sized_init(m, global) && optional_keeps(m, numbers, ConstantRule::Sized, &global.init)
}

/// V7, V11 and V17 of a global: whether its initial value keeps a rule of constants, with all that lies in it.
pub fn init_keeps(m: &Module, numbers: &[u32], rule: ConstantRule, global: &GlobalVar) -> bool
    requires formed { IsWellFormed m.now }
    requires named { IsGlobalFormed m.now global.now }
    ensures { IsTrue result ↔ spec.InitKeeps m.now numbers.now rule global.now }
{
    optional_keeps(m, numbers, rule, &global.init)
}

/// V16 of a global: whether its alignment is as it should be.
pub fn is_aligned_global(global: &GlobalVar) -> bool
    ensures { IsTrue result ↔ spec.IsAlignedGlobal global.now }
{
    is_alignment(global.align)
}

// ---- headers

fn is_scalar_param(m: &Module, param: &Param) -> bool
    ensures { IsTrue result ↔ IsScalar (type_of m.now.types param.now.ty) }
{
    is_scalar(&m.types, param.ty)
}

fn are_scalar_params(m: &Module, params: &[Param]) -> bool
    ensures { IsTrue result ↔ Each params.now (λ k p. IsScalar (type_of m.now.types p.ty)) }
{
    for param in params {
        if !is_scalar_param(m, param) {
            return false;
        }
    }
    true
}

fn are_scalar_constants(m: &Module, numbers: &[u32], ws: &[Written]) -> bool
    requires formed { IsWellFormed m.now }
    requires named { AreNamed m.now ws.now }
    ensures { IsTrue result ↔ Each ws.now (λ k w. IsScalarOperand m.now.types numbers.now m.now.parts Site.Plain w) }
{
    for w in ws {
        if !is_scalar_at(m, numbers, Site::Plain, w) {
            return false;
        }
    }
    true
}

/// Whether the parameters of a function are scalars, and its return type is one or void.
fn has_scalar_type(m: &Module, func: &Func) -> bool
    ensures { IsTrue result ↔ spec.HasScalarType m.now func.now }
{
    may_return(&m.types, func.ret) && are_scalar_params(m, func.params.as_slice())
}

/// V1 of a header: whether parameters are scalars, the return type is one or void, and so are the constants that are
/// written there.
pub fn has_scalar_header(m: &Module, numbers: &[u32], func: &Func) -> bool
    requires formed { IsWellFormed m.now }
    requires named { AreConstants m.now func.now.extra }
    ensures { IsTrue result ↔ spec.HasScalarHeader m.now numbers.now func.now }
{
    has_scalar_type(m, func) && are_scalar_constants(m, numbers, func.extra.as_slice())
}

/// V2, V7, V11 and V17 of a header: whether the constants that are written there keep a rule, with all that lies in them.
pub fn header_keeps(m: &Module, numbers: &[u32], rule: ConstantRule, func: &Func) -> bool
    requires formed { IsWellFormed m.now }
    requires named { AreConstants m.now func.now.extra }
    ensures { IsTrue result ↔ spec.HeaderKeeps m.now numbers.now rule func.now }
{
    each_keeps(m, numbers, rule, func.extra.as_slice())
}

fn is_good_param(param: &Param) -> bool
    ensures { IsTrue result ↔ IsGood param.now.attrs }
{
    is_good(&param.attrs)
}

fn are_good_params(params: &[Param]) -> bool
    ensures { IsTrue result ↔ Each params.now (λ k p. IsGood p.attrs) }
{
    for param in params {
        if !is_good_param(param) {
            return false;
        }
    }
    true
}

/// V16 of a header: whether the alignments and the numbers of bytes at its return and its parameters are as they should be.
pub fn has_good_header(func: &Func) -> bool
    ensures { IsTrue result ↔ spec.HasGoodHeader func.now }
{
    is_good(&func.ret_attrs) && are_good_params(func.params.as_slice())
}

// ---- types

/// The greatest count of an array.
const MAX_COUNT: u64 = (1 << 63) - 1;

/// V17 of a type: whether the count of an array is below 2^63.
pub fn has_fitting_count(ty: &IrType) -> bool
    ensures { IsTrue result ↔ spec.HasFittingCount ty.now }
{
    match ty {
        IrType::Array { count, .. } => *count <= MAX_COUNT,
        _ => true,
    }
}
