//! Attributes of bodies and of call instructions: runs that break them, and runs that keep them.

ghost use Rattle.ir_machine.specs.Meanings.{nounwind, noreturn, nofree, norecurse, nocallback, memory, nocapture, readnone, readonly, writeonly, returned};
ghost use Rattle.ir_machine.specs.Meanings.{HoldsOfBody, HoldsAtCall};
ghost use Rattle.meaning_samples.specs.Sample.{silent, func_f, call_of_f, call_of_g, no_memory, read_memory, argument_memory, accessible_memory, in_b, steps};
ghost use Rattle.meaning_samples.specs.Sample.{where_g_unwinds, where_all_return, where_g_calls_back, where_g_enters_another, where_g_frees};
ghost use Rattle.meaning_samples.specs.Sample.{where_g_has_its_own, where_g_reads, where_g_writes, where_g_knows_it, where_g_reads_elsewhere};
ghost use Rattle.meaning_samples.specs.Sample.{where_g_writes_elsewhere, where_g_reads_hidden, where_g_writes_hidden, where_g_keeps_it};
ghost use Rattle.meaning_samples.specs.Sample.{where_g_keeps_another, where_g_gives_it_back, where_all_give};

/// For each attribute of a body and of its parameter, a run in which a call of the body breaks it. No body can keep `nocallback`, since
/// its own entry is one.
pub fn a_body_can_break_each_attribute()
    ensures nounwind { HoldsOfBody nounwind func_f (steps silent where_g_unwinds) → ⊥ }
    ensures noreturn { HoldsOfBody noreturn func_f (steps silent where_all_return) → ⊥ }
    ensures nofree { HoldsOfBody nofree func_f (steps silent where_g_frees) → ⊥ }
    ensures norecurse { HoldsOfBody norecurse func_f (steps silent where_g_calls_back) → ⊥ }
    ensures nocallback { HoldsOfBody nocallback func_f (steps silent where_all_return) → ⊥ }
    ensures memory_none { HoldsOfBody (memory no_memory) func_f (steps silent where_g_reads) → ⊥ }
    ensures memory_read { HoldsOfBody (memory read_memory) func_f (steps silent where_g_writes) → ⊥ }
    ensures memory_of_arguments { HoldsOfBody (memory argument_memory) func_f (steps silent where_g_reads_elsewhere) → ⊥ }
    ensures memory_that_is_seen { HoldsOfBody (memory accessible_memory) func_f (steps silent where_g_writes_hidden) → ⊥ }
    ensures nocapture { HoldsOfBody (nocapture 0) func_f (steps silent where_g_keeps_it) → ⊥ }
    ensures nocapture_by_return { HoldsOfBody (nocapture 0) func_f (steps silent where_g_gives_it_back) → ⊥ }
    ensures readnone_by_read { HoldsOfBody (readnone 0) func_f (steps silent where_g_reads) → ⊥ }
    ensures readnone_by_write { HoldsOfBody (readnone 0) func_f (steps silent where_g_writes) → ⊥ }
    ensures readonly { HoldsOfBody (readonly 0) func_f (steps silent where_g_writes) → ⊥ }
    ensures writeonly { HoldsOfBody (writeonly 0) func_f (steps silent where_g_reads) → ⊥ }
    ensures returned { HoldsOfBody (returned 0) func_f (steps silent (where_all_give (in_b 0))) → ⊥ }
{}

/// For each attribute of a body and of its parameter, a run in which the body is called and keeps it.
pub fn a_body_can_keep_each_attribute()
    ensures nounwind { HoldsOfBody nounwind func_f (steps silent where_all_return) }
    ensures noreturn { HoldsOfBody noreturn func_f (steps silent where_g_unwinds) }
    ensures nofree { HoldsOfBody nofree func_f (steps silent where_g_has_its_own) }
    ensures norecurse { HoldsOfBody norecurse func_f (steps silent where_g_enters_another) }
    ensures memory_none { HoldsOfBody (memory no_memory) func_f (steps silent where_g_has_its_own) }
    ensures memory_read { HoldsOfBody (memory read_memory) func_f (steps silent where_g_reads_hidden) }
    ensures memory_of_arguments { HoldsOfBody (memory argument_memory) func_f (steps silent where_g_knows_it) }
    ensures memory_that_is_seen { HoldsOfBody (memory accessible_memory) func_f (steps silent where_g_writes_elsewhere) }
    ensures nocapture { HoldsOfBody (nocapture 0) func_f (steps silent where_g_keeps_another) }
    ensures readnone { HoldsOfBody (readnone 0) func_f (steps silent where_g_knows_it) }
    ensures readonly { HoldsOfBody (readonly 0) func_f (steps silent where_g_reads) }
    ensures writeonly { HoldsOfBody (writeonly 0) func_f (steps silent where_g_writes) }
    ensures returned { HoldsOfBody (returned 0) func_f (steps silent where_g_gives_it_back) }
{}

/// For each attribute of a call instruction and of its argument, a run in which a call that is made there breaks it.
pub fn a_call_can_break_each_attribute()
    ensures nounwind { HoldsAtCall nounwind call_of_f (steps silent where_g_unwinds) → ⊥ }
    ensures noreturn { HoldsAtCall noreturn call_of_f (steps silent where_all_return) → ⊥ }
    ensures nofree { HoldsAtCall nofree call_of_f (steps silent where_g_frees) → ⊥ }
    ensures memory_none { HoldsAtCall (memory no_memory) call_of_f (steps silent where_g_reads) → ⊥ }
    ensures memory_read { HoldsAtCall (memory read_memory) call_of_f (steps silent where_g_writes) → ⊥ }
    ensures memory_of_arguments { HoldsAtCall (memory argument_memory) call_of_f (steps silent where_g_reads_elsewhere) → ⊥ }
    ensures memory_that_is_seen { HoldsAtCall (memory accessible_memory) call_of_f (steps silent where_g_writes_hidden) → ⊥ }
    ensures nocapture { HoldsAtCall (nocapture 0) call_of_f (steps silent where_g_keeps_it) → ⊥ }
    ensures nocapture_by_return { HoldsAtCall (nocapture 0) call_of_f (steps silent where_g_gives_it_back) → ⊥ }
    ensures readnone_by_read { HoldsAtCall (readnone 0) call_of_f (steps silent where_g_reads) → ⊥ }
    ensures readnone_by_write { HoldsAtCall (readnone 0) call_of_f (steps silent where_g_writes) → ⊥ }
    ensures readonly { HoldsAtCall (readonly 0) call_of_f (steps silent where_g_writes) → ⊥ }
    ensures writeonly { HoldsAtCall (writeonly 0) call_of_f (steps silent where_g_reads) → ⊥ }
    ensures nocallback { HoldsAtCall nocallback call_of_g (steps silent where_g_calls_back) → ⊥ }
{}

/// For each attribute of a call instruction and of its argument, a run in which a call that is made there keeps it.
pub fn a_call_can_keep_each_attribute()
    ensures nounwind { HoldsAtCall nounwind call_of_f (steps silent where_all_return) }
    ensures noreturn { HoldsAtCall noreturn call_of_f (steps silent where_g_unwinds) }
    ensures nofree { HoldsAtCall nofree call_of_f (steps silent where_g_has_its_own) }
    ensures memory_none { HoldsAtCall (memory no_memory) call_of_f (steps silent where_g_has_its_own) }
    ensures memory_read { HoldsAtCall (memory read_memory) call_of_f (steps silent where_g_reads_hidden) }
    ensures memory_of_arguments { HoldsAtCall (memory argument_memory) call_of_f (steps silent where_g_knows_it) }
    ensures memory_that_is_seen { HoldsAtCall (memory accessible_memory) call_of_f (steps silent where_g_writes_elsewhere) }
    ensures nocapture { HoldsAtCall (nocapture 0) call_of_f (steps silent where_g_keeps_another) }
    ensures readnone { HoldsAtCall (readnone 0) call_of_f (steps silent where_g_knows_it) }
    ensures readonly { HoldsAtCall (readonly 0) call_of_f (steps silent where_g_reads) }
    ensures writeonly { HoldsAtCall (writeonly 0) call_of_f (steps silent where_g_writes) }
    ensures nocallback { HoldsAtCall nocallback call_of_g (steps silent where_all_return) }
{}
