//! The bits of a few facts of uses.
ghost use Rattle.std.specs.Prelude.{◌≡◌, ◌<◌, ◌^◌, ◌↔◌, true, if◌then◌else◌, bit_or};
ghost use Rattle.facts.specs.Kinds.{UseFact, use_bit};
ghost use Rattle.rule_says.specs.Saying.{IsSet};
ghost use Rattle.aa_capture.specs.Kinds.{is_among};

use lattice_words::value::{
    CAPTURED_BY_RETURN_ALONE, NOT_READ_THROUGH, NOT_RETURNED, NOT_WRITTEN_THROUGH,
};

/// A word of one bit, or of none.
fn one_if(test: bool, bit: u32) -> u64
    requires { bit < 47 }
    ensures { result ≡ (if test then 2 ^ bit else 0) }
{
    if test { 1 << bit } else { 0 }
}

/// The bits of both words.
fn or(a: u64, b: u64) -> u64
    ensures { result ≡ bit_or a b }
{
    a | b
}

/// The bits of those facts of uses that are told: not captured but maybe returned, not returned, not read through, not
/// written through.
pub(crate) fn kinds(captured: bool, returned: bool, read: bool, written: bool) -> u64
    ensures { (kind : UseFact) → IsSet result (use_bit kind) ↔ (is_among captured returned read written kind ≡ true) }
{
    let of_return = or(
        one_if(captured, CAPTURED_BY_RETURN_ALONE),
        one_if(returned, NOT_RETURNED),
    );
    let of_access = or(
        one_if(read, NOT_READ_THROUGH),
        one_if(written, NOT_WRITTEN_THROUGH),
    );
    or(of_return, of_access)
}
