//! What outer calls promise of the pointers that they are passed.
ghost use Rattle.std.specs.Prelude.{◌≡◌, ◌==◌, suc};
ghost use Rattle.std.specs.List.{list_any};
ghost use Rattle.ir_module.specs.Calls as spec;
ghost use Rattle.aa_capture.specs.Passing.{has_arg, promise_at};

use attr_ids::FuncId;
use ir_module::{Func, Module, Op, ParamAttrs, is_lifetime};

/// What may be promised of an argument (LangRef, "Parameter Attributes").
#[derive(Clone, Copy)]
pub(crate) enum ArgPromise {
    Nocapture,
    Readnone,
    Readonly,
    Writeonly,
}

/// Whether the promise stands among these attributes.
fn stands(attrs: &ParamAttrs, promise: ArgPromise) -> bool
    ensures { result ≡ has_arg promise attrs.now }
{
    match promise {
        ArgPromise::Nocapture => attrs.nocapture,
        ArgPromise::Readnone => attrs.readnone,
        ArgPromise::Readonly => attrs.readonly,
        ArgPromise::Writeonly => attrs.writeonly,
    }
}

/// Whether a lifetime marker promises it of its pointer: that is not captured, and nothing is read or written through it.
fn marks(promise: ArgPromise) -> bool
    ensures { result ≡ has_arg promise spec.lifetime_pointer }
{
    match promise {
        ArgPromise::Nocapture | ArgPromise::Readnone => true,
        ArgPromise::Readonly | ArgPromise::Writeonly => false,
    }
}

fn is_last(at: usize, count: usize) -> bool
    ensures { result ≡ (suc at == count) }
{
    count != 0 && count - 1 == at
}

/// Whether a lifetime marker promises it of this argument; its pointer is the last.
fn of_marker(func: &Func, at: usize, promise: ArgPromise) -> bool
    ensures { result ≡ spec.is_written (promise_at promise at) (spec.lifetime_attrs func.now) }
{
    is_last(at, func.params.len()) && marks(promise)
}

/// Whether it is written at the declaration.
fn declared(func: &Func, at: usize, promise: ArgPromise) -> bool
    ensures { result ≡ spec.is_written (promise_at promise at) (spec.attrs_of func.now) }
{
    match func.params.get(at) {
        Some(p) => stands(&p.attrs, promise),
        None => false,
    }
}

/// Whether it is written at the call itself.
fn own_promises(op: &Op, at: usize, promise: ArgPromise) -> bool
    ensures { result ≡ list_any (spec.is_written (promise_at promise at)) (spec.own_attrs op.now) }
{
    let Some(call) = op.call() else {
        return false;
    };
    match call.attrs.args.get(at) {
        Some(attrs) => stands(attrs, promise),
        None => false,
    }
}

/// Whether a call of this name promises it of its argument `at`. An argument past the parameters of a variadic
/// function has promises of its call alone.
pub(crate) fn promises_arg(
    m: &Module,
    direct: Option<FuncId>,
    op: &Op,
    at: usize,
    promise: ArgPromise,
) -> bool
    requires { spec.direct_callee m.now op.now ≡ direct }
    ensures { result ≡ spec.is_promised m.now (promise_at promise at) op.now }
{
    let Some(f) = direct else {
        return false;
    };
    let Some(func) = m.funcs.get(f.0 as usize) else {
        return false;
    };
    if func.block_count != 0 {
        return false;
    }
    if is_lifetime(func) {
        return of_marker(func, at, promise);
    }
    declared(func, at, promise) || own_promises(op, at, promise)
}
