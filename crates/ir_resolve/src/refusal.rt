//! Why a tree has no module.
ghost use Rattle.std.specs.Prelude.{◌≡◌, Some, Err};
ghost use Rattle.ir_module.specs.declared.module.Module.{Module};
ghost use Rattle.ir_resolve.specs.Answers.{Tells};
ghost use Rattle.ir_resolve.specs.Modules as spec;

use attr_ids::{NoMemory, Span};
use ir_scopes::{Cause, NameFault};
use ir_token::Token;
use ir_tree::Leaf;

/// The first name in the text that is amiss.
#[derive(Clone, Copy, PartialEq, Eq)]
pub enum NameRefusal {
    /// A use has no definition of its kind.
    Unknown { name: Span },
    /// A name is defined a second time; or a lifetime name is defined, or declared with another type than a marker has.
    Twice { name: Span },
    /// The data layout is not one that the project reads.
    Layout { at: u32 },
    NoMemory,
}

impl From<NoMemory> for NameRefusal {
    ghost use Rattle.std.specs.Prelude.{◌≡◌};
    ghost use Rattle.ir_resolve.specs.declared.refusal.NameRefusal.TheVariants as refusal;

    ghost from_gives = { λ _ e. e ≡ refusal.NoMemory };

    fn from(_error: NoMemory) -> NameRefusal {
        NameRefusal::NoMemory
    }
}

/// The span of a token.
fn span_at(toks: &[Token], at: Leaf) -> Span
    ensures { result ≡ spec.span_at toks.now at }
{
    match toks.get(at as usize) {
        Some(token) => token.span,
        None => Span { from: 0, to: 0 },
    }
}

/// The refusal for a fault.
pub(crate) fn refusal_of(toks: &[Token], fault: NameFault) -> NameRefusal
    ensures { (made : Module) → Tells toks.now (Some fault) made (Err result) }
{
    let name = span_at(toks, fault.at);
    match fault.cause {
        Cause::Unknown => NameRefusal::Unknown { name },
        Cause::Twice => NameRefusal::Twice { name },
        Cause::Layout => NameRefusal::Layout { at: name.from },
    }
}
