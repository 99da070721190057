//! The rules of types, globals and headers.
ghost use Rattle.std.specs.Prelude.{◌≡◌, ◌<◌, ◌^◌, List, [], ◌∷◌, ℕ, length, slice_get, slice_index, Some};
ghost use Rattle.ir_module.specs.Formed.{AreConstants};
ghost use Rattle.ir_module.specs.WellFormed.{Each, IsWellFormed, IsGlobalFormed};
ghost use Rattle.ir_verify.specs.Demands.{OfGlobal, OfHeader, OfType};
ghost use Rattle.ir_verify.specs.Judging.{Judged, Keeps, Breaks, IsOf};

use crate::broken::{Broken, first_of, unless};
use crate::rule::Rule;
use attr_ids::{FuncId, TypeId};
use ir_module::{Func, GlobalVar, Module};
use ir_operands::ConstantRule;
use ir_rules::{
    has_fitting_count, has_good_header, has_init, has_linkage, has_personality, has_scalar_header,
    header_keeps, init_keeps, is_aligned_global, is_scalar_init, is_sized_global,
};
use ir_types::IrType;

/// What is wrong with a type that is first written at this offset.
fn of_type(ty: &IrType, at: u32) -> Option<Broken>
    ensures { Judged (Keeps (OfType ty.now)) (Breaks at (OfType ty.now)) result }
{
    unless(has_fitting_count(ty), Rule::V17, at)
}

/// What is wrong with the types of a module.
pub(crate) fn of_types(m: &Module) -> Option<Broken>
    requires { IsWellFormed m.now }
    ensures { Judged (Each m.now.types (λ t ty. Keeps (OfType ty))) (IsOf m.now.types (λ t ty. Breaks (slice_index m.now.type_at t) (OfType ty))) result }
{
    let mut found = None;
    for t in 0..m.types.len() as u32 {
        let at = m.type_at.as_slice()[t as usize];
        let here = of_type(m.types.get(TypeId(t)), at);
        found = first_of(found, here);
    }
    found
}

/// What is wrong with a global.
fn of_global(m: &Module, numbers: &[u32], global: &GlobalVar) -> Option<Broken>
    requires formed { IsWellFormed m.now }
    requires named { IsGlobalFormed m.now global.now }
    ensures { Judged (Keeps (OfGlobal m.now numbers.now global.now)) (Breaks global.now.at (OfGlobal m.now numbers.now global.now)) result }
{
    let at = global.at;
    let v1 = unless(is_scalar_init(m, numbers, global), Rule::V1, at);
    let v2 = unless(is_sized_global(m, numbers, global), Rule::V2, at);
    let v3 = unless(has_init(global), Rule::V3, at);
    let v7 = unless(
        init_keeps(m, numbers, ConstantRule::Fitting, global),
        Rule::V7,
        at,
    );
    let v11 = unless(
        init_keeps(m, numbers, ConstantRule::Indexed, global),
        Rule::V11,
        at,
    );
    let v16 = unless(is_aligned_global(global), Rule::V16, at);
    let v17 = unless(
        init_keeps(m, numbers, ConstantRule::InRange, global),
        Rule::V17,
        at,
    );
    first_of(
        v1,
        first_of(
            v2,
            first_of(
                v3,
                first_of(v7, first_of(v11, first_of(v16, first_of(v17, None)))),
            ),
        ),
    )
}

/// What is wrong with the globals of a module.
pub(crate) fn of_globals(m: &Module, numbers: &[u32]) -> Option<Broken>
    requires { IsWellFormed m.now }
    ensures { Judged (Each m.now.globals (λ g global. Keeps (OfGlobal m.now numbers.now global)))
        (IsOf m.now.globals (λ g global. Breaks global.at (OfGlobal m.now numbers.now global))) result }
{
    let mut found = None;
    for global in m.globals.as_slice() {
        let here = of_global(m, numbers, global);
        found = first_of(found, here);
    }
    found
}

/// What is wrong with the header of a function.
fn of_header(m: &Module, numbers: &[u32], f: FuncId, func: &Func) -> Option<Broken>
    requires formed { IsWellFormed m.now }
    requires there { f.0 < length m.now.funcs }
    requires named { AreConstants m.now func.now.extra }
    ensures { Judged (Keeps (OfHeader m.now numbers.now f.0 func.now)) (Breaks func.now.at (OfHeader m.now numbers.now f.0 func.now)) result }
{
    let at = func.at;
    let v1 = unless(has_scalar_header(m, numbers, func), Rule::V1, at);
    let v2 = unless(
        header_keeps(m, numbers, ConstantRule::Sized, func),
        Rule::V2,
        at,
    );
    let v3 = unless(has_linkage(func), Rule::V3, at);
    let v7 = unless(
        header_keeps(m, numbers, ConstantRule::Fitting, func),
        Rule::V7,
        at,
    );
    let v11 = unless(
        header_keeps(m, numbers, ConstantRule::Indexed, func),
        Rule::V11,
        at,
    );
    let v16 = unless(has_good_header(func), Rule::V16, at);
    let v17 = unless(
        header_keeps(m, numbers, ConstantRule::InRange, func),
        Rule::V17,
        at,
    );
    let v21 = unless(has_personality(m, f, func), Rule::V21, at);
    let behind = first_of(v11, first_of(v16, first_of(v17, first_of(v21, None))));
    first_of(v1, first_of(v2, first_of(v3, first_of(v7, behind))))
}

/// What is wrong with the headers of a module.
pub(crate) fn of_headers(m: &Module, numbers: &[u32]) -> Option<Broken>
    requires { IsWellFormed m.now }
    ensures { Judged (Each m.now.funcs (λ f func. Keeps (OfHeader m.now numbers.now f func)))
        (IsOf m.now.funcs (λ f func. Breaks func.at (OfHeader m.now numbers.now f func))) result }
{
    let mut found = None;
    for f in 0..m.funcs.len() as u32 {
        let here = of_header(m, numbers, FuncId(f), m.func(FuncId(f)));
        found = first_of(found, here);
    }
    found
}
