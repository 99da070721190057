//! Runs that are honest, and runs that are not.

ghost use Rattle.std.specs.Prelude.{◌≡◌, [], ◌∷◌};
ghost use Rattle.ir_machine.specs.Runs.{IsOpening};
ghost use Rattle.meaning_samples.specs.Sample.{silent, declared, declared_of_parameter, called_with, many, opened, IsHonestRun};
ghost use Rattle.meaning_samples.specs.Sample.{with_nounwind, with_noreturn, with_nofree, with_nocallback, with_memory, with_nocapture, with_readnone};
ghost use Rattle.meaning_samples.specs.Sample.{with_readonly, with_writeonly, with_returned, no_memory, read_memory, argument_memory, accessible_memory};
ghost use Rattle.meaning_samples.specs.Sample.{in_b, where_g_unwinds, where_all_return, where_g_calls_back, where_g_frees, where_g_has_its_own, where_g_reads};
ghost use Rattle.meaning_samples.specs.Sample.{where_g_writes, where_g_knows_it, where_g_reads_elsewhere, where_g_writes_elsewhere, where_g_reads_hidden};
ghost use Rattle.meaning_samples.specs.Sample.{where_g_writes_hidden, where_g_keeps_it, where_g_keeps_another, where_g_gives_it_back, where_all_give};

/// There is an opening state.
pub fn a_run_can_open()
    ensures { IsOpening silent opened }
{}

/// A run in which a function that promises `nounwind` throws is not honest, whether it promises so at its declaration or at the call.
pub fn a_broken_promise_is_dishonest()
    ensures at_its_declaration { IsHonestRun (declared with_nounwind) where_g_unwinds → ⊥ }
    ensures at_the_call { IsHonestRun (called_with with_nounwind) where_g_unwinds → ⊥ }
{}

/// A run in which a function without a promise throws is honest.
pub fn an_honest_run_can_unwind()
    ensures { IsHonestRun silent where_g_unwinds }
{}

/// Each promise is broken in a run, which is not honest.
pub fn each_promise_can_be_broken()
    ensures noreturn { IsHonestRun (declared with_noreturn) where_all_return → ⊥ }
    ensures nofree { IsHonestRun (declared with_nofree) where_g_frees → ⊥ }
    ensures nocallback { IsHonestRun (declared with_nocallback) where_g_calls_back → ⊥ }
    ensures memory_none { IsHonestRun (declared (with_memory no_memory)) where_g_reads → ⊥ }
    ensures memory_read { IsHonestRun (declared (with_memory read_memory)) where_g_writes → ⊥ }
    ensures memory_of_arguments { IsHonestRun (declared (with_memory argument_memory)) where_g_reads_elsewhere → ⊥ }
    ensures memory_that_is_seen { IsHonestRun (declared (with_memory accessible_memory)) where_g_writes_hidden → ⊥ }
    ensures nocapture { IsHonestRun (declared_of_parameter with_nocapture) where_g_keeps_it → ⊥ }
    ensures nocapture_by_return { IsHonestRun (declared_of_parameter with_nocapture) where_g_gives_it_back → ⊥ }
    ensures readnone_by_read { IsHonestRun (declared_of_parameter with_readnone) where_g_reads → ⊥ }
    ensures readnone_by_write { IsHonestRun (declared_of_parameter with_readnone) where_g_writes → ⊥ }
    ensures readonly { IsHonestRun (declared_of_parameter with_readonly) where_g_writes → ⊥ }
    ensures writeonly { IsHonestRun (declared_of_parameter with_writeonly) where_g_reads → ⊥ }
    ensures returned { IsHonestRun (declared_of_parameter with_returned) (where_all_give (in_b 0)) → ⊥ }
{}

/// Each of these runs is honest where nothing is promised.
pub fn without_promises_each_run_is_honest()
    ensures returning { IsHonestRun silent where_all_return }
    ensures freeing { IsHonestRun silent where_g_frees }
    ensures calling_back { IsHonestRun silent where_g_calls_back }
    ensures reading { IsHonestRun silent where_g_reads }
    ensures writing { IsHonestRun silent where_g_writes }
    ensures reading_elsewhere { IsHonestRun silent where_g_reads_elsewhere }
    ensures writing_hidden { IsHonestRun silent where_g_writes_hidden }
    ensures keeping { IsHonestRun silent where_g_keeps_it }
    ensures giving_back { IsHonestRun silent where_g_gives_it_back }
    ensures giving_another { IsHonestRun silent (where_all_give (in_b 0)) }
{}

/// A run in which an outer call keeps what it promises is honest.
pub fn each_promise_can_be_kept()
    ensures nounwind { IsHonestRun (declared with_nounwind) where_all_return }
    ensures noreturn { IsHonestRun (declared with_noreturn) where_g_unwinds }
    ensures nofree { IsHonestRun (declared with_nofree) where_g_has_its_own }
    ensures nocallback { IsHonestRun (declared with_nocallback) where_all_return }
    ensures memory_none { IsHonestRun (declared (with_memory no_memory)) where_g_has_its_own }
    ensures memory_read { IsHonestRun (declared (with_memory read_memory)) where_g_reads_hidden }
    ensures memory_of_arguments { IsHonestRun (declared (with_memory argument_memory)) where_g_knows_it }
    ensures memory_that_is_seen { IsHonestRun (declared (with_memory accessible_memory)) where_g_writes_elsewhere }
    ensures nocapture { IsHonestRun (declared_of_parameter with_nocapture) where_g_keeps_another }
    ensures readnone { IsHonestRun (declared_of_parameter with_readnone) where_g_knows_it }
    ensures readonly { IsHonestRun (declared_of_parameter with_readonly) where_g_reads }
    ensures writeonly { IsHonestRun (declared_of_parameter with_writeonly) where_g_writes }
    ensures returned { IsHonestRun (declared_of_parameter with_returned) where_g_gives_it_back }
    ensures many_at_once { IsHonestRun many where_g_reads }
{}
