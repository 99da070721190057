//! Edges that a `br` or a `switch` on a literal never takes.
ghost use Rattle.std.specs.Prelude.{◌≡◌, ◌||◌, ◌==◌, not, false, if◌then◌else◌};
ghost use Rattle.std.specs.List.{list_any};
ghost use Rattle.std.specs.Option.{option_map_or};
ghost use Rattle.ir_module.specs.Operands as operands;
ghost use Rattle.facts.specs.DeadEdges as spec;

use ir_module::{Case, Module, Op, Way, Written, literal};

/// A written literal is this number.
fn is_number(m: &Module, n: u64, w: &Written) -> bool
    ensures { result ≡ spec.is_number m.now n w.now }
{
    match literal(m, w) {
        Some(k) => k == n,
        None => false,
    }
}

/// A written literal is another number.
fn is_other_number(m: &Module, n: u64, w: &Written) -> bool
    ensures { result ≡ spec.is_other_number m.now n w.now }
{
    match literal(m, w) {
        Some(k) => k != n,
        None => false,
    }
}

/// The case is this number.
fn is_case(m: &Module, n: u64, case: &Case) -> bool
    ensures { result ≡ spec.is_number m.now n case.now.val }
{
    is_number(m, n, &case.val)
}

fn or(a: bool, b: bool) -> bool
    ensures { result ≡ (a || b) }
{
    a || b
}

/// Some case is this number.
fn has_case(m: &Module, n: u64, cases: &[Case]) -> bool
    ensures { result ≡ list_any (λ case. spec.is_number m.now n case.val) cases.now }
{
    let mut found = false;
    for case in cases {
        found = or(found, is_case(m, n, case));
    }
    found
}

/// A `br` on a literal takes the other edge.
fn branches_off(m: &Module, c: &Written, yes: bool) -> bool
    ensures { result ≡ (if yes then spec.is_number m.now 0 c.now else spec.is_other_number m.now 0 c.now) }
{
    if yes {
        is_number(m, 0, c)
    } else {
        is_other_number(m, 0, c)
    }
}

/// A `switch` on a literal does not take the edge of this case.
fn misses(m: &Module, on: &Written, case: &Written) -> bool
    ensures { result ≡ option_map_or (λ n. spec.is_other_number m.now n case.now) (operands.literal m.now on.now) false }
{
    match literal(m, on) {
        Some(n) => is_other_number(m, n, case),
        None => false,
    }
}

/// A `switch` on a literal takes the edge of a case.
fn hits(m: &Module, on: &Written, cases: &[Case]) -> bool
    ensures { result ≡ option_map_or (λ n. list_any (λ case. spec.is_number m.now n case.val) cases.now) (operands.literal m.now on.now) false }
{
    match literal(m, on) {
        Some(n) => has_case(m, n, cases),
        None => false,
    }
}

/// The terminator is a `br` or a `switch` on a literal, and takes another edge.
pub(crate) fn takes_other(m: &Module, op: &Op, way: Way) -> bool
    ensures { result ≡ spec.takes_other m.now op.now way }
{
    match (op, way) {
        (Op::Branch { c, .. }, Way::Yes) => branches_off(m, c, true),
        (Op::Branch { c, .. }, Way::No) => branches_off(m, c, false),
        (Op::Switch { on, .. }, Way::Case(w)) => misses(m, on, &w),
        (Op::Switch { on, cases, .. }, Way::Other) => hits(m, on, cases.as_slice()),
        _ => false,
    }
}
