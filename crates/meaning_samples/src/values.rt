//! Attributes of values: runs in which the value of a call has them, and runs in which it does not.

ghost use Rattle.ir_machine.specs.Meanings.{nonnull, align, dereferenceable, Argument, Parameter, Result, HoldsOfBodyValue, HoldsAtCallValue};
ghost use Rattle.meaning_samples.specs.Sample.{silent, func_f, call_of_f, call_of_g, in_a, null, undef, poison, steps, where_g_gives_what_it_freed};
ghost use Rattle.meaning_samples.specs.Sample.{where_all_get, where_all_give};

/// For each attribute of the return of a body, a run in which what it returns breaks it.
pub fn a_return_can_break_each_attribute()
    ensures nonnull_of_null { HoldsOfBodyValue silent nonnull Result func_f (steps silent (where_all_give null)) → ⊥ }
    ensures nonnull_of_undef { HoldsOfBodyValue silent nonnull Result func_f (steps silent (where_all_give undef)) → ⊥ }
    ensures align { HoldsOfBodyValue silent (align 8) Result func_f (steps silent (where_all_give (in_a 4))) → ⊥ }
    ensures align_of_undef { HoldsOfBodyValue silent (align 8) Result func_f (steps silent (where_all_give undef)) → ⊥ }
    ensures dereferenceable { HoldsOfBodyValue silent (dereferenceable 8) Result func_f (steps silent (where_all_give (in_a 4))) → ⊥ }
    ensures dereferenceable_of_null { HoldsOfBodyValue silent (dereferenceable 8) Result func_f (steps silent (where_all_give null)) → ⊥ }
    ensures dereferenceable_of_freed { HoldsOfBodyValue silent (dereferenceable 8) Result func_f (steps silent where_g_gives_what_it_freed) → ⊥ }
{}

/// For each attribute of the return of a body, a run in which what it returns keeps it.
pub fn a_return_can_keep_each_attribute()
    ensures nonnull { HoldsOfBodyValue silent nonnull Result func_f (steps silent (where_all_give (in_a 0))) }
    ensures nonnull_of_poison { HoldsOfBodyValue silent nonnull Result func_f (steps silent (where_all_give poison)) }
    ensures align { HoldsOfBodyValue silent (align 8) Result func_f (steps silent (where_all_give (in_a 8))) }
    ensures align_of_null { HoldsOfBodyValue silent (align 8) Result func_f (steps silent (where_all_give null)) }
    ensures dereferenceable { HoldsOfBodyValue silent (dereferenceable 4) Result func_f (steps silent (where_all_give (in_a 4))) }
{}

/// For each attribute of a parameter, a run in which what it gets breaks it.
pub fn a_parameter_can_break_each_attribute()
    ensures nonnull_of_null { HoldsOfBodyValue silent nonnull (Parameter 0) func_f (steps silent (where_all_get null)) → ⊥ }
    ensures nonnull_of_undef { HoldsOfBodyValue silent nonnull (Parameter 0) func_f (steps silent (where_all_get undef)) → ⊥ }
    ensures align { HoldsOfBodyValue silent (align 8) (Parameter 0) func_f (steps silent (where_all_get (in_a 4))) → ⊥ }
    ensures align_of_undef { HoldsOfBodyValue silent (align 8) (Parameter 0) func_f (steps silent (where_all_get undef)) → ⊥ }
    ensures dereferenceable { HoldsOfBodyValue silent (dereferenceable 8) (Parameter 0) func_f (steps silent (where_all_get (in_a 4))) → ⊥ }
    ensures dereferenceable_of_null { HoldsOfBodyValue silent (dereferenceable 8) (Parameter 0) func_f (steps silent (where_all_get null)) → ⊥ }
{}

/// For each attribute of a parameter, a run in which what it gets keeps it.
pub fn a_parameter_can_keep_each_attribute()
    ensures nonnull { HoldsOfBodyValue silent nonnull (Parameter 0) func_f (steps silent (where_all_get (in_a 0))) }
    ensures nonnull_of_poison { HoldsOfBodyValue silent nonnull (Parameter 0) func_f (steps silent (where_all_get poison)) }
    ensures align { HoldsOfBodyValue silent (align 8) (Parameter 0) func_f (steps silent (where_all_get (in_a 8))) }
    ensures align_of_null { HoldsOfBodyValue silent (align 8) (Parameter 0) func_f (steps silent (where_all_get null)) }
    ensures dereferenceable { HoldsOfBodyValue silent (dereferenceable 4) (Parameter 0) func_f (steps silent (where_all_get (in_a 4))) }
{}

/// For each attribute of the result of a call instruction, a run in which what comes back there breaks it.
pub fn a_result_can_break_each_attribute()
    ensures nonnull_of_null { HoldsAtCallValue silent nonnull Result call_of_f (steps silent (where_all_give null)) → ⊥ }
    ensures nonnull_of_undef { HoldsAtCallValue silent nonnull Result call_of_f (steps silent (where_all_give undef)) → ⊥ }
    ensures align { HoldsAtCallValue silent (align 8) Result call_of_f (steps silent (where_all_give (in_a 4))) → ⊥ }
    ensures align_of_undef { HoldsAtCallValue silent (align 8) Result call_of_f (steps silent (where_all_give undef)) → ⊥ }
    ensures dereferenceable { HoldsAtCallValue silent (dereferenceable 8) Result call_of_f (steps silent (where_all_give (in_a 4))) → ⊥ }
    ensures dereferenceable_of_null { HoldsAtCallValue silent (dereferenceable 8) Result call_of_f (steps silent (where_all_give null)) → ⊥ }
    ensures dereferenceable_of_freed { HoldsAtCallValue silent (dereferenceable 8) Result call_of_f (steps silent where_g_gives_what_it_freed) → ⊥ }
{}

/// For each attribute of the result of a call instruction, a run in which what comes back there keeps it.
pub fn a_result_can_keep_each_attribute()
    ensures nonnull { HoldsAtCallValue silent nonnull Result call_of_f (steps silent (where_all_give (in_a 0))) }
    ensures nonnull_of_poison { HoldsAtCallValue silent nonnull Result call_of_f (steps silent (where_all_give poison)) }
    ensures align { HoldsAtCallValue silent (align 8) Result call_of_f (steps silent (where_all_give (in_a 8))) }
    ensures align_of_null { HoldsAtCallValue silent (align 8) Result call_of_f (steps silent (where_all_give null)) }
    ensures dereferenceable { HoldsAtCallValue silent (dereferenceable 4) Result call_of_f (steps silent (where_all_give (in_a 4))) }
{}

/// For each attribute of an argument of an outer call, a run in which what is passed there breaks it.
pub fn an_argument_can_break_each_attribute()
    ensures nonnull_of_null { HoldsAtCallValue silent nonnull (Argument 0) call_of_g (steps silent (where_all_get null)) → ⊥ }
    ensures nonnull_of_undef { HoldsAtCallValue silent nonnull (Argument 0) call_of_g (steps silent (where_all_get undef)) → ⊥ }
    ensures align { HoldsAtCallValue silent (align 8) (Argument 0) call_of_g (steps silent (where_all_get (in_a 4))) → ⊥ }
    ensures align_of_undef { HoldsAtCallValue silent (align 8) (Argument 0) call_of_g (steps silent (where_all_get undef)) → ⊥ }
    ensures dereferenceable { HoldsAtCallValue silent (dereferenceable 8) (Argument 0) call_of_g (steps silent (where_all_get (in_a 4))) → ⊥ }
    ensures dereferenceable_of_null { HoldsAtCallValue silent (dereferenceable 8) (Argument 0) call_of_g (steps silent (where_all_get null)) → ⊥ }
{}

/// For each attribute of an argument of an outer call, a run in which what is passed there keeps it.
pub fn an_argument_can_keep_each_attribute()
    ensures nonnull { HoldsAtCallValue silent nonnull (Argument 0) call_of_g (steps silent (where_all_get (in_a 0))) }
    ensures nonnull_of_poison { HoldsAtCallValue silent nonnull (Argument 0) call_of_g (steps silent (where_all_get poison)) }
    ensures align { HoldsAtCallValue silent (align 8) (Argument 0) call_of_g (steps silent (where_all_get (in_a 8))) }
    ensures align_of_null { HoldsAtCallValue silent (align 8) (Argument 0) call_of_g (steps silent (where_all_get null)) }
    ensures dereferenceable { HoldsAtCallValue silent (dereferenceable 4) (Argument 0) call_of_g (steps silent (where_all_get (in_a 4))) }
{}
