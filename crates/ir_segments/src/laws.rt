//! A law of the definitions: it has no parameter and an empty body, and its contract is the law.
ghost use Rattle.std.specs.Prelude.{◌≡◌, List};
ghost use Rattle.std.specs.List.{flat_map};
ghost use Rattle.ir_module.specs.declared.op.Instr.{Instr};
ghost use Rattle.ir_segments.specs.Segments.{AreRuns, cut, ends};

/// The segments of a block have its instructions in order. None is empty; a call stands last in its segment; and each
/// segment but the last ends in a call.
pub fn segments_end_in_calls()
    ensures whole { (is : List Instr) → flat_map (λ run. run) (cut ends is) ≡ is }
    ensures runs { (is : List Instr) → AreRuns ends (cut ends is) }
{}
