//! The rules and the sizes of a module.
ghost use Rattle.std.specs.Prelude.{ℕ, List, OnOk, IfErr};
ghost use Rattle.ir_module.specs.WellFormed.{IsWellFormed, HasFew};
ghost use Rattle.ir_verify.specs.Verified.{IsVerified, HaveLayouts};
ghost use Rattle.accept.specs.Accepted.{IsModuleOf, IsChecked};
ghost use Rattle.accept.specs.Causes.{IsCause, HasFault};
ghost use Rattle.accept.specs.Limits.{IsOfSize, IsGreatestArity};

use crate::counting::{greater, greatest_args, greatest_params, instructions};
use crate::refusal::{FUNCTION_LIMIT, INSTRUCTION_LIMIT, Limit, PARAMETER_LIMIT, Refusal};
use ir_module::Module;
use ir_verify::{Fault, verify};
use std::alloc::Global;

/// What a fault of the verifier is told as.
fn refused_by(fault: Fault) -> Refusal
    ensures { (b : List ℕ) → HasFault b fault → IsCause b result }
{
    match fault {
        Fault::Deep { count } => Refusal::TooLarge {
            which: Limit::TypeNesting,
            count,
        },
        Fault::Huge { count } => Refusal::TooLarge {
            which: Limit::TypeBytes,
            count,
        },
        Fault::Rule { rule, at, path } => Refusal::Verify(Fault::Rule { rule, at, path }),
        Fault::NoMemory => Refusal::NoMemory,
    }
}

/// That the module keeps the rules.
pub(crate) fn verified(alloc: Global, m: &Module) -> Result<(), Refusal>
    requires { IsWellFormed m.now }
    ensures verified { OnOk result (IsVerified m.now) }
    ensures layouts { OnOk result (HaveLayouts m.now) }
    ensures refused { (b : List ℕ) → IsModuleOf b m.now → IfErr result (IsCause b) }
{
    match verify(alloc, m) {
        Ok(()) => Ok(()),
        Err(fault) => Err(refused_by(fault)),
    }
}

/// The greatest number of parameters of one function, or of arguments of one call.
fn arity(m: &Module) -> u64
    requires { HasFew m.now }
    ensures { IsGreatestArity m.now result }
{
    greater(greatest_params(m), greatest_args(m))
}

/// That functions, parameters and instructions are few enough.
pub(crate) fn sized(m: &Module) -> Result<(), Refusal>
    requires { HasFew m.now }
    ensures sized { OnOk result (IsOfSize m.now) }
    ensures refused { (b : List ℕ) → IsChecked b m.now → IfErr result (IsCause b) }
{
    let functions = m.funcs.len() as u64;
    if functions > FUNCTION_LIMIT {
        return Err(Refusal::TooLarge {
            which: Limit::Functions,
            count: functions,
        });
    }
    let arity = arity(m);
    if arity > PARAMETER_LIMIT {
        return Err(Refusal::TooLarge {
            which: Limit::Parameters,
            count: arity,
        });
    }
    let instructions = instructions(m);
    if instructions > INSTRUCTION_LIMIT {
        return Err(Refusal::TooLarge {
            which: Limit::Instructions,
            count: instructions,
        });
    }
    Ok(())
}
