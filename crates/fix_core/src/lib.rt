//! The core machine of the deduction, as a pure machine: words of facts with a dirty bit for each seat, and
//! seats that take words up, look at their inputs, cut them to what their terms leave, and tell the positions
//! that read what fell. A system, its graph, a state and a list of events go in; the state after them comes
//! out. The layer above uses the laws: every event keeps the core invariant and the two counts, a state at
//! rest that meets the invariant has the greatest list of words, and no seat takes up more words than the
//! budget.
#![tactic(auto)]

mod counts;
mod event;
mod laws;
mod lists;
mod running;
mod seat;
mod state;

pub use counts::{
    a_clear_keeps_the_counts, a_cut_keeps_the_counts, a_join_keeps_the_counts,
    a_look_keeps_the_counts, a_take_keeps_the_counts, a_tell_keeps_the_counts,
    counted_seats_are_within_the_budget, every_event_keeps_the_counts,
    no_run_takes_more_than_the_budget, the_opening_meets_the_counts,
};
pub use event::{CoreEvent, EventList};
pub use laws::{
    a_clear_keeps_the_core, a_cut_keeps_the_core, a_join_keeps_the_core, a_look_keeps_the_core,
    a_quiet_state_has_the_greatest_words, a_take_keeps_the_core, a_tell_keeps_the_core,
    every_event_keeps_the_core, every_list_of_events_keeps_the_core, every_state_is_above,
    owed_positions_are_positions, the_opening_meets_the_core,
};
pub use running::run;
pub use state::{CoreMode, CoreSeat, CoreSeats, CoreState, LookedList};
