//! V18 of a module: the first use that is not defined on every path.
ghost use Rattle.std.specs.Prelude.{◌≡◌, ◌<◌, ◌^◌, ℕ, length, IfOk};
ghost use Rattle.ir_module.specs.WellFormed.{IsWellFormed};
ghost use Rattle.ir_verify.specs.Undefined as spec;

use attr_ids::{FuncId, NoMemory};
use ir_module::Module;
use ir_paths::{BlockList, UseFault, defined_on_every_path};
use std::alloc::Global;

/// A use that is not defined, by its offset, and the path on which it is not.
#[derive(Drop)]
pub(crate) struct Undefined {
    pub(crate) at: u32,
    pub(crate) path: BlockList,
}

/// The first use in a body that is not defined on every path, if there is one.
fn in_body(alloc: Global, m: &Module, f: FuncId) -> Result<Option<Undefined>, NoMemory>
    requires formed { IsWellFormed m.now }
    requires there { f.0 < length m.now.funcs }
    ensures { IfOk result (λ found. spec.AreJudged m.now (λ g. g ≡ f.0) found) }
{
    match defined_on_every_path(alloc, m, f) {
        Ok(()) => Ok(None),
        Err(UseFault::Missing { use_at, path }) => Ok(Some(Undefined { at: use_at, path })),
        Err(UseFault::NoMemory) => Err(NoMemory),
    }
}

/// The one of two uses that is written first.
fn earlier(a: Option<Undefined>, b: Option<Undefined>) -> Option<Undefined>
    ensures { result ≡ spec.earlier a b }
{
    match (a, b) {
        (None, b) => b,
        (a, None) => a,
        (Some(a), Some(b)) => {
            let first = if b.at < a.at { b } else { a };
            Some(first)
        }
    }
}

/// The first use in a module that is not defined on every path, if there is one.
pub(crate) fn first_undefined(alloc: Global, m: &Module) -> Result<Option<Undefined>, NoMemory>
    requires { IsWellFormed m.now }
    ensures { IfOk result (λ found. spec.AreJudged m.now (λ f. f < length m.now.funcs) found) }
{
    let mut found = None;
    for f in 0..m.funcs.len() as u32 {
        let here = in_body(alloc, m, FuncId(f))?;
        found = earlier(found, here);
    }
    Ok(found)
}
