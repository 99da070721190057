//! Calls. The type that is written for a callee is what the arguments have. An argument is a value, by its number, or
//! `null`; behind `with` stand the attributes.
use crate::attributes::{NO_ATTRS, NO_FUNC_ATTRS, Part, begun_part, set_func, set_param};
use crate::words::{id, ty, word};
use attr_ids::{FuncId, NoMemory, Offsets, TypeId, ValueId};
use ir_module::{
    Call, CallAttrs, CallPlaces, FuncType, Operand, Operands, ParamAttrsList, Written,
};
use ir_types::TypeList;
use std::alloc::Global;
use std::str::SplitWhitespace;

/// The number of the type `ptr`.
const PTR: u32 = 1;

/// A call without arguments. Its return has the place 1000, itself 1001, and its arguments 1, 2 and so on.
fn bare_call(alloc: Global, ret: TypeId, callee: FuncId) -> Call {
    Call {
        func_ty: FuncType {
            ret,
            params: TypeList::new(alloc),
            variadic: false,
        },
        callee: Written {
            val: Operand::Func(callee),
            ty: TypeId(PTR),
            at: 0,
        },
        args: Operands::new(alloc),
        attrs: CallAttrs {
            func: NO_FUNC_ATTRS,
            ret: NO_ATTRS,
            args: ParamAttrsList::new(alloc),
        },
        places: CallPlaces {
            ret: 1000,
            after: 1001,
            args: Offsets::new(alloc),
        },
    }
}

fn add_arg(call: &mut Call, val: Operand, ty: TypeId, place: u32) -> Result<(), NoMemory> {
    call.func_ty.params.push(ty)?;
    call.args.push(Written { val, ty, at: 0 })?;
    call.attrs.args.push(NO_ATTRS)?;
    call.places.args.push(place)
}

fn add_args(call: &mut Call, words: &mut SplitWhitespace<'_>) -> Result<(), NoMemory> {
    for at in 0..u32::MAX {
        match words.next() {
            Some("%") => {
                let value = ValueId(id(words));
                add_arg(call, Operand::Value(value), ty(words), at + 1)?;
            }
            Some("null") => add_arg(call, Operand::Null, TypeId(PTR), at + 1)?,
            _ => break,
        }
    }
    Ok(())
}

/// Sets the attribute of this name at an argument, if there is such an argument.
fn set_arg(args: &mut ParamAttrsList, at: u32, name: &str, words: &mut SplitWhitespace<'_>) {
    if let Some(here) = args.get(at as usize) {
        let mut attrs = *here;
        set_param(&mut attrs, name, words);
        if (at as usize) < args.len() {
            args.set(at as usize, attrs);
        }
    }
}

fn set_at(attrs: &mut CallAttrs, at: Part, name: &str, words: &mut SplitWhitespace<'_>) {
    match at {
        Part::Whole => set_func(&mut attrs.func, name, words),
        Part::Return => set_param(&mut attrs.ret, name, words),
        Part::Argument(n) => set_arg(&mut attrs.args, n, name, words),
    }
}

/// Sets the attributes of a call: those behind `fn`, behind `ret`, and behind `arg` and a number.
fn set_attrs(attrs: &mut CallAttrs, words: &mut SplitWhitespace<'_>) {
    let mut at = Part::Whole;
    for _ in 0..u64::MAX {
        let name = word(words);
        if name.is_empty() {
            break;
        }
        match begun_part(name, words) {
            Some(next) => at = next,
            None => set_at(attrs, at, name, words),
        }
    }
}

/// The return type, the callee and the arguments of a call, and behind `with` its attributes.
pub(crate) fn call(alloc: Global, words: &mut SplitWhitespace<'_>) -> Result<Call, NoMemory> {
    let ret = ty(words);
    let callee = FuncId(id(words));
    let mut call = bare_call(alloc, ret, callee);
    add_args(&mut call, words)?;
    set_attrs(&mut call.attrs, words);
    Ok(call)
}
