//! What a call says of the pointers that it passes.
ghost use Rattle.std.specs.Prelude.{◌≡◌, ◌↔◌, IsSome};
ghost use Rattle.facts.specs.Kinds.{UseFact, use_bit};
ghost use Rattle.facts.specs.Uses.{ArgUsed};
ghost use Rattle.rule_says.specs.Saying.{IsSet};
ghost use Rattle.aa_capture.specs.Passing.{IsPassing};

use crate::kinds::kinds;
use crate::promising::{ArgPromise, promises_arg};
use aa_memory::{Access, Location, promises_no_access};
use attr_ids::FuncId;
use ir_module::{Module, Op, direct_callee};
use rule_says::inner_callee;

/// What a call says of all its arguments: the function that it names directly, the body that it runs, and whether one
/// `memory(..)` excludes all that it may read, or write, through an argument.
#[derive(Clone, Copy)]
pub(crate) struct Passing {
    pub(crate) direct: Option<FuncId>,
    pub(crate) body: Option<FuncId>,
    pub(crate) no_read: bool,
    pub(crate) no_write: bool,
}

/// Worked out once for a call, which may have many arguments.
pub(crate) fn passing_of(m: &Module, op: &Op) -> Passing
    ensures { IsPassing m.now op.now result }
{
    Passing {
        direct: direct_callee(m, op),
        body: inner_callee(m, op),
        no_read: promises_no_access(m, Access::Read, Location::Argmem, op),
        no_write: promises_no_access(m, Access::Write, Location::Argmem, op),
    }
}

/// The facts of uses that an outer call promises of its argument `at`.
pub(crate) fn arg_uses(m: &Module, op: &Op, passing: Passing, at: usize) -> u64
    requires { IsPassing m.now op.now passing }
    ensures { (kind : UseFact) → IsSet result (use_bit kind) ↔ ArgUsed m.now kind at op.now }
{
    let direct = passing.direct;
    if !promises_arg(m, direct, op, at, ArgPromise::Nocapture) {
        return 0;
    }
    let neither = promises_arg(m, direct, op, at, ArgPromise::Readnone);
    let not_read = neither || promises_arg(m, direct, op, at, ArgPromise::Writeonly);
    let not_written = neither || promises_arg(m, direct, op, at, ArgPromise::Readonly);
    kinds(
        true,
        true,
        not_read || passing.no_read,
        not_written || passing.no_write,
    )
}
