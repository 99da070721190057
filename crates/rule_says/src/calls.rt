//! What a call runs, and what it promises as a whole.
ghost use Rattle.std.specs.Prelude.{◌≡◌, Some, None, IfSome, IfNone};
ghost use Rattle.ir_module.specs.declared.attrs.CallAttrs.{CallAttrs};
ghost use Rattle.std.specs.List.{list_any};
ghost use Rattle.ir_module.specs.Calls as spec;
ghost use Rattle.rule_says.specs.Calls.{promise_of};

use attr_ids::FuncId;
use ir_module::{FuncAttrs, MemoryAttr, Module, Op, direct_callee, is_lifetime};

/// What a call may promise as a whole (LangRef, "Function Attributes").
#[derive(Clone, Copy)]
pub enum CallPromise {
    Nounwind,
    Noreturn,
    Nofree,
    Nocallback,
}

/// What a lifetime marker promises, whatever is written at its declaration.
const OF_LIFETIME: FuncAttrs = FuncAttrs {
    nounwind: true,
    noreturn: false,
    nofree: true,
    norecurse: false,
    nocallback: true,
    memory: Some(MemoryAttr {
        other: 0,
        argmem: 0,
        inaccessible: 0,
    }),
};

/// The body that an inner call runs. An outer call, and what is no call, has none.
pub fn inner_callee(m: &Module, op: &Op) -> Option<FuncId>
    ensures some { IfSome result (λ g. spec.inner_callee m.now op.now ≡ Some g.0) }
    ensures none { IfNone result (spec.inner_callee m.now op.now ≡ None) }
{
    let f = direct_callee(m, op)?;
    let func = m.funcs.get(f.0 as usize)?;
    if func.block_count == 0 || func.linkage.is_replaceable() {
        return None;
    }
    Some(f)
}

/// Whether the promise stands among these attributes.
fn stands(attrs: &FuncAttrs, promise: CallPromise) -> bool
    ensures { (a : CallAttrs) → a.func ≡ attrs.now → result ≡ spec.is_written (promise_of promise) a }
{
    match promise {
        CallPromise::Nounwind => attrs.nounwind,
        CallPromise::Noreturn => attrs.noreturn,
        CallPromise::Nofree => attrs.nofree,
        CallPromise::Nocallback => attrs.nocallback,
    }
}

/// Whether a call of this name promises it: at its declaration, or by its own attributes.
pub fn promises(m: &Module, op: &Op, promise: CallPromise) -> bool
    ensures { result ≡ spec.is_promised m.now (promise_of promise) op.now }
{
    let Some(f) = direct_callee(m, op) else {
        return false;
    };
    let Some(func) = m.funcs.get(f.0 as usize) else {
        return false;
    };
    if func.block_count != 0 {
        return false;
    }
    if is_lifetime(func) {
        return stands(&OF_LIFETIME, promise);
    }
    stands(&func.attrs, promise) || own_promises(op, promise)
}

/// Whether the promise is written at the call itself.
fn own_promises(op: &Op, promise: CallPromise) -> bool
    ensures { result ≡ list_any (spec.is_written (promise_of promise)) (spec.own_attrs op.now) }
{
    match op.call() {
        Some(call) => stands(&call.attrs.func, promise),
        None => false,
    }
}
