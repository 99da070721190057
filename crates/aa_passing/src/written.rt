//! What is written at a parameter.
ghost use Rattle.std.specs.Prelude.{◌≡◌, ℕ, Option, Some, IfSome, IfNone, slice_get};
ghost use Rattle.lattice_words.specs.Words.{word_of};
ghost use Rattle.lattice_words.specs.Ladders.{align_rungs};
ghost use Rattle.facts.specs.Kinds.{ValueFact};
ghost use Rattle.facts.specs.Entry as entry;
ghost use Rattle.operand_says.specs.Kinds.{kind_of};
ghost use Rattle.operand_says.specs.Asked.{table_has};
ghost use Rattle.aa_passing.specs.Entered.{is_given};

use ir_module::ParamAttrs;
use lattice_words::{align_rung, value};
use operand_says::{Kind, divides, says, with};

/// What stands at the parameter gives it.
fn gives(attrs: ParamAttrs, kind: Kind) -> bool
    ensures { (o : Option ValueFact) → kind_of o ≡ kind → result ≡ table_has (entry.gives attrs) o }
{
    match kind {
        Kind::NonNull => attrs.nonnull || attrs.dereferenceable != 0,
        Kind::Aligned(bytes) => attrs.align != 0 && divides(bytes, attrs.align),
        Kind::Bytes(count) => attrs.dereferenceable != 0 && count <= attrs.dereferenceable,
        _ => false,
    }
}

/// The bit is given.
fn gives_bit(attrs: ParamAttrs, bit: u32) -> bool
    ensures { result ≡ is_given attrs bit }
{
    gives(attrs, says(bit))
}

/// The bits that are given.
pub(crate) fn given(attrs: ParamAttrs) -> u64
    ensures { result ≡ word_of (is_given attrs) 43 }
{
    let mut word = 0;
    for bit in 0..43 {
        word = with(word, bit, gives_bit(attrs, bit));
    }
    word
}

/// The rung of an alignment, if it has one.
pub(crate) fn rung_of(align: u64) -> Option<u32>
    ensures some { IfSome result (λ k. slice_get align_rungs k ≡ Some align) }
    ensures none { IfNone result ((r : ℕ) → slice_get align_rungs r ≡ Some align → ⊥) }
{
    for k in 0..value::ALIGN_RUNGS {
        if align_rung(k) == align {
            return Some(k);
        }
    }
    None
}
