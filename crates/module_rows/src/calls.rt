//! Calls. The type that is written for a callee is what the arguments have.
use crate::operands::{operand, operand_if};
use crate::words::ty;
use attr_ids::{NoMemory, Offsets, TypeId};
use ir_module::{
    Call, CallAttrs, CallPlaces, FuncAttrs, FuncType, Operands, ParamAttrs, ParamAttrsList, Written,
};
use ir_types::TypeList;
use std::alloc::Global;
use std::str::SplitWhitespace;

pub(crate) const NO_FUNC_ATTRS: FuncAttrs = FuncAttrs {
    nounwind: false,
    noreturn: false,
    nofree: false,
    norecurse: false,
    nocallback: false,
    memory: None,
};

pub(crate) const NO_ATTRS: ParamAttrs = ParamAttrs {
    nonnull: false,
    nocapture: false,
    captures: false,
    readnone: false,
    readonly: false,
    writeonly: false,
    returned: false,
    sret: false,
    writable: false,
    align: 0,
    dereferenceable: 0,
    bad: false,
};

/// A call without arguments.
fn bare_call(alloc: Global, ret: TypeId, callee: Written) -> Call {
    Call {
        func_ty: FuncType {
            ret,
            params: TypeList::new(alloc),
            variadic: false,
        },
        callee,
        args: Operands::new(alloc),
        attrs: CallAttrs {
            func: NO_FUNC_ATTRS,
            ret: NO_ATTRS,
            args: ParamAttrsList::new(alloc),
        },
        places: CallPlaces {
            ret: 0,
            after: 0,
            args: Offsets::new(alloc),
        },
    }
}

fn add_arg(call: &mut Call, arg: Written) -> Result<(), NoMemory> {
    call.func_ty.params.push(arg.ty)?;
    call.args.push(arg)?;
    call.attrs.args.push(NO_ATTRS)?;
    call.places.args.push(0)
}

fn add_args(call: &mut Call, words: &mut SplitWhitespace<'_>) -> Result<(), NoMemory> {
    for _ in 0..u64::MAX {
        let Some(arg) = operand_if(words) else {
            break;
        };
        add_arg(call, arg)?;
    }
    Ok(())
}

/// The return type, the callee and the arguments of a call.
pub(crate) fn call(alloc: Global, words: &mut SplitWhitespace<'_>) -> Result<Call, NoMemory> {
    let ret = ty(words);
    let callee = operand(words);
    let mut call = bare_call(alloc, ret, callee);
    add_args(&mut call, words)?;
    Ok(call)
}
