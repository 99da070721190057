//! Values.
ghost use Rattle.std.specs.Prelude.{◌≡◌, ◌<◌, ◌^◌, IfOk, length};
ghost use Rattle.ir_tree.specs.Steps.{Longest};
ghost use Rattle.ir_tree.specs.Values as production;

use crate::constants::constant;
use crate::step::the;
use crate::types::ty;
use attr_ids::NoMemory;
use ir_tree::{Terminal, Tvalue, Value};
use sqlite_items::Boxed;
use std::alloc::Global;

/// `value`
pub fn value(alloc: Global, toks: &[Terminal], at: u32) -> Result<Option<(Value, u32)>, NoMemory>
    requires few { length toks.now < 2 ^ 32 }
    ensures { IfOk result (λ r. Longest (production.value toks.now) at r) }
{
    if let Some(next) = the(toks, Terminal::Local, at) {
        return Ok(Some((Value::Local(at), next)));
    }
    let Some((found, next)) = constant(alloc, toks, at)? else {
        return Ok(None);
    };
    let found = Boxed::new(alloc, found)?;
    Ok(Some((Value::Const(found), next)))
}

/// `tvalue`
pub fn tvalue(alloc: Global, toks: &[Terminal], at: u32) -> Result<Option<(Tvalue, u32)>, NoMemory>
    requires few { length toks.now < 2 ^ 32 }
    ensures { IfOk result (λ r. Longest (production.tvalue toks.now) at r) }
{
    let Some((ty, after)) = ty(alloc, toks, at)? else {
        return Ok(None);
    };
    let Some((value, next)) = value(alloc, toks, after)? else {
        return Ok(None);
    };
    Ok(Some((Tvalue { ty, value }, next)))
}
