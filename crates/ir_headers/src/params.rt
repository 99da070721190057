//! The parameters of a function.
ghost use Rattle.std.specs.Prelude.{◌≡◌, IfOk};
ghost use Rattle.ir_instrs.specs.Reading.{reading};
ghost use Rattle.ir_headers.specs.Headers as spec;

use attr_ids::{NoMemory, Sequence, ValueId};
use ir_attrs::{param_attrs, param_place};
use ir_instrs::{Source, type_of};
use ir_module::{Param, Params};
use std::alloc::Global;

/// A parameter that is the value of this number.
#[tactic(auto, unfolding(ir_instrs::specs::Reading::reading))]
fn param_of(
    alloc: Global,
    src: &Source<'_>,
    value: u32,
    param: &ir_tree::Param,
) -> Result<Param, NoMemory>
    ensures { IfOk result (λ p. p ≡ spec.param_of (reading src.now) value param.now) }
{
    let ty = type_of(alloc, src, &param.ty)?;
    Ok(Param {
        value: ValueId(value),
        ty,
        attrs: param_attrs(src.text, src.toks, param.words.as_slice()),
        place: param_place(src.toks, param),
    })
}

/// One more. No text has so many things that their number does not fit.
pub(crate) fn one_more(count: u32) -> Result<u32, NoMemory>
    ensures { IfOk result (λ more. more ≡ spec.one_more count) }
{
    count.checked_add(1).ok_or(NoMemory)
}

/// Parameters, of which the first is the value of this number.
fn params_from(
    alloc: Global,
    src: &Source<'_>,
    first: u32,
    list: &[ir_tree::Param],
) -> Result<Params, NoMemory>
    ensures { IfOk result (λ params. params ≡ spec.params_from (reading src.now) first list.now) }
{
    let mut params = Vec::new(alloc);
    let mut value = first;
    let mut rest = list;
    while let [param, others @ ..] = rest {
        let made = param_of(alloc, src, value, param)?;
        params.push(made)?;
        value = one_more(value)?;
        rest = others;
    }
    Ok(Sequence::from_vec(params))
}

/// The parameters of a header, of which the first is the value of this number.
pub(crate) fn params_of(
    alloc: Global,
    src: &Source<'_>,
    first: u32,
    params: &ir_tree::Params,
) -> Result<Params, NoMemory>
    ensures { IfOk result (λ made. made ≡ spec.params_of (reading src.now) first params.now) }
{
    match params {
        ir_tree::Params::Listed { params, .. } => params_from(alloc, src, first, params.as_slice()),
        _ => Ok(Sequence::from_vec(Vec::new(alloc))),
    }
}

/// Whether `...` is written.
pub(crate) fn is_variadic(params: &ir_tree::Params) -> bool
    ensures { result ≡ spec.is_variadic params.now }
{
    match params {
        ir_tree::Params::Empty => false,
        ir_tree::Params::Dots(_) => true,
        ir_tree::Params::Listed { dots, .. } => dots.is_some(),
    }
}
