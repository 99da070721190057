//! Calls.
ghost use Rattle.std.specs.Prelude.{◌≡◌, map, IfOk};
ghost use Rattle.ir_attrs.specs.Params as params;
ghost use Rattle.ir_operands.specs.Constants.{ArePartsBelow};
ghost use Rattle.ir_instrs.specs.Reading as below;
ghost use Rattle.ir_instrs.specs.Reading.{reading};
ghost use Rattle.ir_instrs.specs.Uses.{Takes};
ghost use Rattle.ir_bodies.specs.Context.{context, IsSound};
ghost use Rattle.ir_bodies.specs.Calls as spec;

use crate::scene::{Scene, param_attrs};
use attr_ids::{NoMemory, Sequence};
use ir_attrs::{call_places, func_attrs};
use ir_consts::Laid;
use ir_instrs::{PTR, Source, type_of, written};
use ir_module::{Call, CallAttrs, FuncType, Operands, ParamAttrsList, Written};
use ir_tree::{Arg, Called, Ftype, Ty};
use ir_types::TypeList;
use std::alloc::Global;

fn types_of(alloc: Global, src: &Source<'_>, list: &[Ty]) -> Result<TypeList, NoMemory>
    ensures { IfOk result (λ types. types ≡ map (reading src.now).kind list.now) }
{
    let mut types = Vec::new(alloc);
    for ty in list {
        types.push(type_of(alloc, src, ty)?)?;
    }
    Ok(Sequence::from_vec(types))
}

fn arg_types(alloc: Global, src: &Source<'_>, list: &[Arg]) -> Result<TypeList, NoMemory>
    ensures { IfOk result (λ types. types ≡ map (λ a. (reading src.now).kind a.ty) list.now) }
{
    let mut types = Vec::new(alloc);
    for arg in list {
        types.push(type_of(alloc, src, &arg.ty)?)?;
    }
    Ok(Sequence::from_vec(types))
}

/// The types of the parameters: those that are written, or else those of the arguments.
fn param_types(
    alloc: Global,
    src: &Source<'_>,
    params: &Option<Ftype>,
    args: &[Arg],
) -> Result<TypeList, NoMemory>
    ensures { IfOk result (λ types. types ≡ spec.param_types (reading src.now) params.now args.now) }
{
    match params {
        None => arg_types(alloc, src, args),
        Some(Ftype::Listed { types, .. }) => types_of(alloc, src, types.as_slice()),
        _ => Ok(Sequence::from_vec(Vec::new(alloc))),
    }
}

fn is_variadic(params: &Option<Ftype>) -> bool
    ensures { result ≡ spec.is_variadic params.now }
{
    match params {
        Some(Ftype::Dots(_)) => true,
        Some(Ftype::Listed { dots, .. }) => dots.is_some(),
        _ => false,
    }
}

/// The function type that a call writes.
fn func_type(alloc: Global, src: &Source<'_>, called: &Called) -> Result<FuncType, NoMemory>
    ensures { IfOk result (λ t. t ≡ spec.func_type (reading src.now) called.now) }
{
    let callee = &called.callee;
    let params = param_types(alloc, src, &callee.params, called.arguments.args.as_slice())?;
    let ret = type_of(alloc, src, &callee.result)?;
    Ok(FuncType {
        ret,
        params,
        variadic: is_variadic(&callee.params),
    })
}

/// An argument of a call.
fn arg_of(alloc: Global, src: &Source<'_>, arg: &Arg, notes: &mut Laid) -> Result<Written, NoMemory>
    requires sound { below.IsSound src.now }
    requires below { ArePartsBelow notes.old.parts.items }
    ensures value { IfOk result (λ w. w ≡ spec.arg (reading src.now) notes.old.parts.items arg.now) }
    ensures takes { IfOk result (λ _. Takes (reading src.now) (spec.arg_uses (reading src.now) arg.now) notes.old notes.new) }
{
    let ty = type_of(alloc, src, &arg.ty)?;
    written(alloc, src, ty, &arg.value, notes)
}

/// The arguments of a call.
fn args_of(
    alloc: Global,
    src: &Source<'_>,
    list: &[Arg],
    notes: &mut Laid,
) -> Result<Operands, NoMemory>
    requires sound { below.IsSound src.now }
    requires below { ArePartsBelow notes.old.parts.items }
    ensures value { IfOk result (λ args. args ≡ spec.args_of (reading src.now) notes.old.parts.items list.now) }
    ensures takes { IfOk result (λ _. Takes (reading src.now) (spec.args_uses (reading src.now) list.now) notes.old notes.new) }
{
    let mut args = Operands::new(alloc);
    for arg in list {
        let made = arg_of(alloc, src, arg, notes)?;
        args.push(made)?;
    }
    Ok(args)
}

fn arg_attrs(alloc: Global, scene: &Scene<'_>, list: &[Arg]) -> Result<ParamAttrsList, NoMemory>
    ensures { IfOk result (λ attrs. attrs ≡ map (λ a. params.param_attrs (context scene.now).reading.text (context scene.now).reading.toks a.words) list.now) }
{
    let mut attrs = Vec::new(alloc);
    for arg in list {
        attrs.push(param_attrs(scene, arg.words.as_slice()))?;
    }
    Ok(Sequence::from_vec(attrs))
}

/// The attributes that are written at a call, those of its groups among them.
#[tactic(auto, unfolding(ir_instrs::specs::Reading::reading))]
fn call_attrs(alloc: Global, scene: &Scene<'_>, called: &Called) -> Result<CallAttrs, NoMemory>
    requires sound { IsSound scene.now }
    ensures { IfOk result (λ attrs. attrs ≡ spec.call_attrs (context scene.now) called.now) }
{
    let src = &scene.source;
    let words = called.arguments.attributes.as_slice();
    let func = func_attrs(alloc, src.text, src.toks, src.ids, scene.groups, words)?;
    let ret = param_attrs(scene, called.callee.result_words.as_slice());
    let args = arg_attrs(alloc, scene, called.arguments.args.as_slice())?;
    Ok(CallAttrs { func, ret, args })
}

/// A call, and what it names.
#[tactic(auto, unfolding(ir_instrs::specs::Reading::reading))]
pub(crate) fn call_of(
    alloc: Global,
    scene: &Scene<'_>,
    called: &Called,
    notes: &mut Laid,
) -> Result<Call, NoMemory>
    requires sound { IsSound scene.now }
    requires below { ArePartsBelow notes.old.parts.items }
    ensures value { IfOk result (λ c. c ≡ spec.call_of (context scene.now) notes.old.parts.items called.now) }
    ensures takes { IfOk result (λ _. Takes (context scene.now).reading (spec.call_uses (context scene.now).reading called.now) notes.old notes.new) }
{
    let src = &scene.source;
    let callee = written(alloc, src, PTR, &called.callee.value, notes)?;
    let args = args_of(alloc, src, called.arguments.args.as_slice(), notes)?;
    let func_ty = func_type(alloc, src, called)?;
    let attrs = call_attrs(alloc, scene, called)?;
    let places = call_places(alloc, src.toks, called)?;
    Ok(Call {
        func_ty,
        callee,
        args,
        attrs,
        places,
    })
}
