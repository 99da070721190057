ghost use Rattle.std.specs.Prelude.{◌≡◌};
ghost use Rattle.ir_verify.specs.Judging as spec;

use crate::rule::Rule;

/// A rule that fails, and the offset at which it does.
#[derive(Clone, Copy)]
pub(crate) struct Broken {
    pub(crate) rule: Rule,
    pub(crate) at: u32,
}

/// Whether a fault comes behind another: its rule is greater, or the same at a greater offset.
fn is_later(a: Broken, b: Broken) -> bool
    ensures { result ≡ spec.is_later a b }
{
    let (first, second) = (a.rule.number(), b.rule.number());
    second < first || first == second && b.at < a.at
}

/// The first of what was found at two places.
pub(crate) fn first_of(x: Option<Broken>, y: Option<Broken>) -> Option<Broken>
    ensures { result ≡ spec.first_of x y }
{
    match (x, y) {
        (None, y) => y,
        (x, None) => x,
        (Some(a), Some(b)) => Some(if is_later(a, b) { b } else { a }),
    }
}

/// The fault of a rule at an offset, unless it is kept.
pub(crate) fn unless(kept: bool, rule: Rule, at: u32) -> Option<Broken>
    ensures { result ≡ spec.unless kept rule at }
{
    if kept {
        None
    } else {
        Some(Broken { rule, at })
    }
}
