//! The call: types first, then all rules.
ghost use Rattle.std.specs.Prelude.{◌≡◌, ◌↔◌, IsTrue, OnOk, IfErr, IfOk};
ghost use Rattle.ir_module.specs.WellFormed.{IsWellFormed};
ghost use Rattle.ir_verify.specs.Verified as spec;
ghost use Rattle.ir_verify.specs.Verified.{IsVerified, HaveLayouts, IsFault, AreOthersJudged};

use crate::broken::{Broken, first_of};
use crate::entities::{of_globals, of_headers, of_types};
use crate::instrs::of_segs;
use crate::paths::first_undefined;
use crate::rule::Rule;
use crate::types::is_some_refused;
use attr_ids::NoMemory;
use ir_module::Module;
use ir_paths::BlockList;
use ir_rules::gather;
use ir_type_equality::canonical;
use ir_types::TypeRefusal;
use std::alloc::Global;

/// One more than the greatest nesting of a type.
const TOO_DEEP: u64 = 65;

/// One more than the greatest size of a type, in bytes.
const TOO_LARGE: u64 = (1 << 40) + 1;

/// Why a module is not verified.
#[derive(Drop)]
pub enum Fault {
    /// The rule of this number fails at this offset. The path of blocks is that of V18, and empty at other rules.
    Rule { rule: u8, at: u32, path: BlockList },
    /// A type is nested too deep: at least so deep.
    Deep { count: u64 },
    /// A type is too large: it takes at least so many bytes.
    Huge { count: u64 },
    /// No memory was left.
    NoMemory,
}

impl From<NoMemory> for Fault {
    ghost use Rattle.std.specs.Prelude.{◌≡◌};
    ghost use Rattle.ir_verify.specs.declared.verify_module.Fault.TheVariants as fault;

    ghost from_gives = { λ _ e. e ≡ fault.NoMemory };

    fn from(_error: NoMemory) -> Fault {
        Fault::NoMemory
    }
}

/// What is wrong with a module but for V18.
fn others(alloc: Global, m: &Module) -> Result<Option<Broken>, NoMemory>
    requires { IsWellFormed m.now }
    ensures { IfOk result (λ found. AreOthersJudged m.now found) }
{
    let owned = canonical(alloc, &m.types)?;
    let numbers = owned.as_slice();
    let survey = gather(alloc, m)?;
    let types = of_types(m);
    let globals = of_globals(m, numbers);
    let headers = of_headers(m, numbers);
    let segs = of_segs(alloc, m, numbers, &survey)?;
    Ok(first_of(types, first_of(globals, first_of(headers, segs))))
}

/// Whether a fault is of a rule before V18.
fn is_early(broken: Option<Broken>) -> bool
    ensures { IsTrue result ↔ spec.IsEarly broken }
{
    match broken {
        Some(b) => b.rule.number() < 18,
        None => false,
    }
}

/// The answer where V18 holds, or comes later.
fn answer(alloc: Global, broken: Option<Broken>) -> Result<(), Fault>
    ensures { result ≡ spec.answered broken }
{
    match broken {
        Some(b) => Err(Fault::Rule {
            rule: b.rule.number(),
            at: b.at,
            path: BlockList::new(alloc),
        }),
        None => Ok(()),
    }
}

/// The answer by what was found of all rules but V18.
fn verify_paths(alloc: Global, m: &Module, broken: Option<Broken>) -> Result<(), Fault>
    requires formed { IsWellFormed m.now }
    requires layouts { HaveLayouts m.now }
    requires others { AreOthersJudged m.now broken }
    ensures verified { OnOk result (IsVerified m.now) }
    ensures fault { IfErr result (IsFault m.now) }
{
    if is_early(broken) {
        return answer(alloc, broken);
    }
    match first_undefined(alloc, m)? {
        Some(u) => Err(Fault::Rule {
            rule: Rule::V18.number(),
            at: u.at,
            path: u.path,
        }),
        None => answer(alloc, broken),
    }
}

/// All rules of a module whose types have layouts.
fn verify_rules(alloc: Global, m: &Module) -> Result<(), Fault>
    requires formed { IsWellFormed m.now }
    requires layouts { HaveLayouts m.now }
    ensures verified { OnOk result (IsVerified m.now) }
    ensures fault { IfErr result (IsFault m.now) }
{
    let broken = others(alloc, m)?;
    verify_paths(alloc, m, broken)
}

/// Whether a module keeps the rules V1 to V21.
///
/// # Errors
/// A type is nested more than 64 deep, or, if none is, a type takes more than 2^40 bytes; or, if none does, the least rule that
/// fails anywhere, at its smallest offset, with the path of V18. Or no memory was left.
pub fn verify(alloc: Global, m: &Module) -> Result<(), Fault>
    requires { IsWellFormed m.now }
    ensures verified { OnOk result (IsVerified m.now) }
    ensures layouts { OnOk result (HaveLayouts m.now) }
    ensures fault { IfErr result (IsFault m.now) }
{
    if is_some_refused(&m.types, TypeRefusal::Deep) {
        return Err(Fault::Deep { count: TOO_DEEP });
    }
    if is_some_refused(&m.types, TypeRefusal::Huge) {
        return Err(Fault::Huge { count: TOO_LARGE });
    }
    verify_rules(alloc, m)
}
