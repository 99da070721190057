//! Runs of small modules by written choices: which steps are done, undefined or over, their events, and the last state.

ghost use Rattle.machine_samples.specs.Build.{IsShown};
ghost use Rattle.machine_samples.specs.ComputingFirst.{operations_at_8_bits, flags_give_the_exact_result_or_poison, undef_and_poison_in_operands};
ghost use Rattle.machine_samples.specs.ComputingFirst.{udiv_of_poison_and_of_undef_by_0, udiv_by_0_is_undefined, icmp_predicates};
ghost use Rattle.machine_samples.specs.ComputingFirst.{icmp_on_pointers_goes_by_pick_and_captures, casts};
ghost use Rattle.machine_samples.specs.ComputingSecond.{ptrtoint_goes_by_pick_and_captures, select, select_on_a_poison_condition_is_poison, freeze_of_integers};
ghost use Rattle.machine_samples.specs.ComputingSecond.{freeze_of_pointers, freeze_to_no_block_ends, gep_offsets, gep_from_null, gep_undef_index_goes_by_pick};
ghost use Rattle.machine_samples.specs.ComputingSecond.{gep_of_undef_and_poison};
ghost use Rattle.machine_samples.specs.ComputingThird.{inbounds_outside_is_poison, nusw_and_nuw_go_by_pick_elsewhere, constant_geps};
ghost use Rattle.machine_samples.specs.AccessesFirst.{alloca_sizes_and_bases, alloca_over_a_live_block_ends, alloca_of_count_undef_is_undefined};
ghost use Rattle.machine_samples.specs.AccessesFirst.{loops_make_a_new_block_each_time, integers_are_stored_little_endian, loads_drop_the_upper_bits};
ghost use Rattle.machine_samples.specs.AccessesFirst.{undef_and_poison_bytes, four_fragments_load_as_undef_and_eight_as_the_pointer};
ghost use Rattle.machine_samples.specs.AccessesFirst.{fragments_with_other_origins_give_poison, stored_undef_poison_and_null, load_through_null_is_undefined};
ghost use Rattle.machine_samples.specs.AccessesFirst.{load_at_an_address_that_is_no_multiple_is_undefined};
ghost use Rattle.machine_samples.specs.AccessesSecond.{store_through_a_dead_block_is_undefined, a_volatile_load, a_volatile_store};
ghost use Rattle.machine_samples.specs.Edges.{br_takes_the_arm_of_its_condition, br_on_undef_is_undefined, switch_on_poison_is_undefined};
ghost use Rattle.machine_samples.specs.Edges.{unreachable_is_undefined, phis_read_the_old_values, phis_carry_origins_and_take_the_arm_of_the_edge};
ghost use Rattle.machine_samples.specs.Edges.{phis_of_the_unwind_block_take_the_later_picks, pairs_go_through_a_phi};
ghost use Rattle.machine_samples.specs.CallingFirst.{an_inner_call_pushes_a_module_frame, an_outer_call_pushes_an_outside_frame};
ghost use Rattle.machine_samples.specs.CallingFirst.{an_indirect_call_of_a_body_is_outer, an_indirect_call_through_no_function_is_outer};
ghost use Rattle.machine_samples.specs.CallingFirst.{enter_marks_each_pointer_by_its_place, entry_nonnull, entry_align};
ghost use Rattle.machine_samples.specs.CallingFirst.{entry_dereferenceable_of_null_is_undefined, returned_nonnull_null_becomes_poison};
ghost use Rattle.machine_samples.specs.CallingFirst.{returned_dereferenceable_null_is_undefined, outside_returns_what_it_has_in_hand};
ghost use Rattle.machine_samples.specs.CallingFirst.{results_of_entered_bodies_are_in_hand, allocas_die_when_their_frame_returns};
ghost use Rattle.machine_samples.specs.CallingFirst.{an_invoke_goes_on_at_the_normal_block};
ghost use Rattle.machine_samples.specs.CallingSecond.{an_unwind_goes_on_at_the_unwind_block, unwind_through_an_invoke_with_catch_of_a_type_by_pick};
ghost use Rattle.machine_samples.specs.CallingSecond.{unwinds_take_picks_from_the_top_frame_down, an_unwind_stops_at_an_outside_frame};
ghost use Rattle.machine_samples.specs.CallingSecond.{lifetime_end_closes_the_block, lifetime_start_opens_the_block_and_makes_its_bytes_undef};
ghost use Rattle.machine_samples.specs.CallingSecond.{lifetime_calls_of_other_pointers_do_nothing};
ghost use Rattle.machine_samples.specs.CallingThird.{store_through_a_closed_block_is_undefined, an_invoke_of_a_lifetime_name_goes_on_at_the_normal_block};
ghost use Rattle.machine_samples.specs.Acting.{outside_reads_through_any_pointer_without_origins, outside_read_of_one_fragment_puts_the_pointer_in_hand};
ghost use Rattle.machine_samples.specs.Acting.{outside_read_of_a_closed_block_ends, outside_writes_any_bytes, outside_writes_a_pointer_in_hand_and_captures_it};
ghost use Rattle.machine_samples.specs.Acting.{outside_write_of_a_fragment_with_foreign_origins_ends, hidden_read_and_hidden_write};
ghost use Rattle.machine_samples.specs.Acting.{new_gives_a_live_block_of_undef_bytes, new_beside_a_live_block, free_makes_a_heap_block_dead};
ghost use Rattle.machine_samples.specs.Acting.{free_of_a_global_ends, keep_of_foreign_origins_ends, kept_values_are_in_every_hand};
ghost use Rattle.machine_samples.specs.Acting.{enter_of_an_internal_body_ends, enter_with_a_pointer_for_an_integer_ends, the_lowest_frame_does_not_return};
ghost use Rattle.machine_samples.specs.Acting.{the_lowest_frame_does_not_unwind, return_of_an_integer_that_does_not_fit_ends, no_act_in_an_outside_frame_ends};
ghost use Rattle.machine_samples.specs.Acting.{act_in_a_module_frame_ends};

/// Instructions that compute a value: integers, comparisons, conversions, `select`, `freeze` and `getelementptr`.
pub fn computing()
    ensures operations_at_8_bits { IsShown operations_at_8_bits }
    ensures flags_give_the_exact_result_or_poison { IsShown flags_give_the_exact_result_or_poison }
    ensures undef_and_poison_in_operands { IsShown undef_and_poison_in_operands }
    ensures udiv_of_poison_and_of_undef_by_0 { IsShown udiv_of_poison_and_of_undef_by_0 }
    ensures udiv_by_0_is_undefined { IsShown udiv_by_0_is_undefined }
    ensures icmp_predicates { IsShown icmp_predicates }
    ensures icmp_on_pointers_goes_by_pick_and_captures { IsShown icmp_on_pointers_goes_by_pick_and_captures }
    ensures casts { IsShown casts }
    ensures ptrtoint_goes_by_pick_and_captures { IsShown ptrtoint_goes_by_pick_and_captures }
    ensures select { IsShown select }
    ensures select_on_a_poison_condition_is_poison { IsShown select_on_a_poison_condition_is_poison }
    ensures freeze_of_integers { IsShown freeze_of_integers }
    ensures freeze_of_pointers { IsShown freeze_of_pointers }
    ensures freeze_to_no_block_ends { IsShown freeze_to_no_block_ends }
    ensures gep_offsets { IsShown gep_offsets }
    ensures gep_from_null { IsShown gep_from_null }
    ensures gep_undef_index_goes_by_pick { IsShown gep_undef_index_goes_by_pick }
    ensures gep_of_undef_and_poison { IsShown gep_of_undef_and_poison }
    ensures inbounds_outside_is_poison { IsShown inbounds_outside_is_poison }
    ensures nusw_and_nuw_go_by_pick_elsewhere { IsShown nusw_and_nuw_go_by_pick_elsewhere }
    ensures constant_geps { IsShown constant_geps }
{}

/// Memory access: `alloca`, `load` and `store`, integers and pointers byte by byte, volatile access.
pub fn accesses()
    ensures alloca_sizes_and_bases { IsShown alloca_sizes_and_bases }
    ensures alloca_over_a_live_block_ends { IsShown alloca_over_a_live_block_ends }
    ensures alloca_of_count_undef_is_undefined { IsShown alloca_of_count_undef_is_undefined }
    ensures loops_make_a_new_block_each_time { IsShown loops_make_a_new_block_each_time }
    ensures integers_are_stored_little_endian { IsShown integers_are_stored_little_endian }
    ensures loads_drop_the_upper_bits { IsShown loads_drop_the_upper_bits }
    ensures undef_and_poison_bytes { IsShown undef_and_poison_bytes }
    ensures four_fragments_load_as_undef_and_eight_as_the_pointer { IsShown four_fragments_load_as_undef_and_eight_as_the_pointer }
    ensures fragments_with_other_origins_give_poison { IsShown fragments_with_other_origins_give_poison }
    ensures stored_undef_poison_and_null { IsShown stored_undef_poison_and_null }
    ensures load_through_null_is_undefined { IsShown load_through_null_is_undefined }
    ensures load_at_an_address_that_is_no_multiple_is_undefined { IsShown load_at_an_address_that_is_no_multiple_is_undefined }
    ensures store_through_a_dead_block_is_undefined { IsShown store_through_a_dead_block_is_undefined }
    ensures a_volatile_load { IsShown a_volatile_load }
    ensures a_volatile_store { IsShown a_volatile_store }
{}

/// Branches, and phis at each kind of edge.
pub fn edges()
    ensures br_takes_the_arm_of_its_condition { IsShown br_takes_the_arm_of_its_condition }
    ensures br_on_undef_is_undefined { IsShown br_on_undef_is_undefined }
    ensures switch_on_poison_is_undefined { IsShown switch_on_poison_is_undefined }
    ensures unreachable_is_undefined { IsShown unreachable_is_undefined }
    ensures phis_read_the_old_values { IsShown phis_read_the_old_values }
    ensures phis_carry_origins_and_take_the_arm_of_the_edge { IsShown phis_carry_origins_and_take_the_arm_of_the_edge }
    ensures phis_of_the_unwind_block_take_the_later_picks { IsShown phis_of_the_unwind_block_take_the_later_picks }
    ensures pairs_go_through_a_phi { IsShown pairs_go_through_a_phi }
{}

/// Calls, returns and unwindings, the rule of entry and of promised results, landing pads, lifetime markers.
pub fn calling()
    ensures an_inner_call_pushes_a_module_frame { IsShown an_inner_call_pushes_a_module_frame }
    ensures an_outer_call_pushes_an_outside_frame { IsShown an_outer_call_pushes_an_outside_frame }
    ensures an_indirect_call_of_a_body_is_outer { IsShown an_indirect_call_of_a_body_is_outer }
    ensures an_indirect_call_through_no_function_is_outer { IsShown an_indirect_call_through_no_function_is_outer }
    ensures enter_marks_each_pointer_by_its_place { IsShown enter_marks_each_pointer_by_its_place }
    ensures entry_nonnull { IsShown entry_nonnull }
    ensures entry_align { IsShown entry_align }
    ensures entry_dereferenceable_of_null_is_undefined { IsShown entry_dereferenceable_of_null_is_undefined }
    ensures returned_nonnull_null_becomes_poison { IsShown returned_nonnull_null_becomes_poison }
    ensures returned_dereferenceable_null_is_undefined { IsShown returned_dereferenceable_null_is_undefined }
    ensures outside_returns_what_it_has_in_hand { IsShown outside_returns_what_it_has_in_hand }
    ensures results_of_entered_bodies_are_in_hand { IsShown results_of_entered_bodies_are_in_hand }
    ensures allocas_die_when_their_frame_returns { IsShown allocas_die_when_their_frame_returns }
    ensures an_invoke_goes_on_at_the_normal_block { IsShown an_invoke_goes_on_at_the_normal_block }
    ensures an_unwind_goes_on_at_the_unwind_block { IsShown an_unwind_goes_on_at_the_unwind_block }
    ensures unwind_through_an_invoke_with_catch_of_a_type_by_pick { IsShown unwind_through_an_invoke_with_catch_of_a_type_by_pick }
    ensures unwinds_take_picks_from_the_top_frame_down { IsShown unwinds_take_picks_from_the_top_frame_down }
    ensures an_unwind_stops_at_an_outside_frame { IsShown an_unwind_stops_at_an_outside_frame }
    ensures lifetime_end_closes_the_block { IsShown lifetime_end_closes_the_block }
    ensures lifetime_start_opens_the_block_and_makes_its_bytes_undef { IsShown lifetime_start_opens_the_block_and_makes_its_bytes_undef }
    ensures lifetime_calls_of_other_pointers_do_nothing { IsShown lifetime_calls_of_other_pointers_do_nothing }
    ensures store_through_a_closed_block_is_undefined { IsShown store_through_a_closed_block_is_undefined }
    ensures an_invoke_of_a_lifetime_name_goes_on_at_the_normal_block { IsShown an_invoke_of_a_lifetime_name_goes_on_at_the_normal_block }
{}

/// Each act of the outside, allowed and not.
pub fn acting()
    ensures outside_reads_through_any_pointer_without_origins { IsShown outside_reads_through_any_pointer_without_origins }
    ensures outside_read_of_one_fragment_puts_the_pointer_in_hand { IsShown outside_read_of_one_fragment_puts_the_pointer_in_hand }
    ensures outside_read_of_a_closed_block_ends { IsShown outside_read_of_a_closed_block_ends }
    ensures outside_writes_any_bytes { IsShown outside_writes_any_bytes }
    ensures outside_writes_a_pointer_in_hand_and_captures_it { IsShown outside_writes_a_pointer_in_hand_and_captures_it }
    ensures outside_write_of_a_fragment_with_foreign_origins_ends { IsShown outside_write_of_a_fragment_with_foreign_origins_ends }
    ensures hidden_read_and_hidden_write { IsShown hidden_read_and_hidden_write }
    ensures new_gives_a_live_block_of_undef_bytes { IsShown new_gives_a_live_block_of_undef_bytes }
    ensures new_beside_a_live_block { IsShown new_beside_a_live_block }
    ensures free_makes_a_heap_block_dead { IsShown free_makes_a_heap_block_dead }
    ensures free_of_a_global_ends { IsShown free_of_a_global_ends }
    ensures keep_of_foreign_origins_ends { IsShown keep_of_foreign_origins_ends }
    ensures kept_values_are_in_every_hand { IsShown kept_values_are_in_every_hand }
    ensures enter_of_an_internal_body_ends { IsShown enter_of_an_internal_body_ends }
    ensures enter_with_a_pointer_for_an_integer_ends { IsShown enter_with_a_pointer_for_an_integer_ends }
    ensures the_lowest_frame_does_not_return { IsShown the_lowest_frame_does_not_return }
    ensures the_lowest_frame_does_not_unwind { IsShown the_lowest_frame_does_not_unwind }
    ensures return_of_an_integer_that_does_not_fit_ends { IsShown return_of_an_integer_that_does_not_fit_ends }
    ensures no_act_in_an_outside_frame_ends { IsShown no_act_in_an_outside_frame_ends }
    ensures act_in_a_module_frame_ends { IsShown act_in_a_module_frame_ends }
{}
