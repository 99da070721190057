ghost use Rattle.ir_types.specs.Refusals.{AreRefusedByParts};

/// The refusals that `size_of` answers, which are read from layouts, are those of the parts: deep
/// where the nesting exceeds 64, huge where there are more than 2^40 bytes, unsized where neither
/// holds and void or an opaque type is a part. A type that is reached from itself is deep.
pub fn refusals_come_by_parts()
    ensures { AreRefusedByParts }
{}
