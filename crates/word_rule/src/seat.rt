ghost use Rattle.std.specs.Prelude.{◌≡◌, ◌<◌, ◌≤◌, [], length, drop, Some, Contains, vec_capacity};
ghost use Rattle.attr_ids.specs.declared.ids.PosId.{PosId as Position};
ghost use Rattle.fix_core.specs.Machine.{values_of};
ghost use Rattle.word_rule.specs.Seats.{place_in, position_count, input_count, most_inputs, most_dependents};
ghost use Rattle.word_rule.specs.Views.{looked_in, owed_in};

use crate::view::View;
use atomic_table::Seat;
use attr_ids::{PosId, Sequence};

/// The seat of one worker. It has room for the inputs and the dependents of any position, so that a turn takes
/// no memory.
#[derive(Drop)]
pub struct WorkerSeat {
    pub(crate) seat: Seat<(), View>,
    pub(crate) number: u8,
    pub(crate) place: Option<PosId>,
    pub(crate) looked: Vec<u64>,
    pub(crate) owed: Vec<PosId>,
    /// The owed positions before this one were told.
    pub(crate) next: usize,
    ghost numbered: { number ≡ seat.me.0.number },
    ghost few: { number < 16 },
    ghost slotless: { seat.me.1 ≡ [] },
    ghost opens: { place ≡ place_in seat.me.0.core.mode },
    ghost looks: { looked.items ≡ values_of (looked_in seat.me.0.core.mode) },
    ghost owes: { drop next owed.items ≡ owed_in seat.me.0.core.mode },
    ghost places: { (p : Position) → place ≡ Some p → p.0 < position_count seat.me.0.about },
    ghost width: { (p : Position) → place ≡ Some p → length looked.items ≡ input_count seat.me.0.about p },
    ghost debts: { (d : Position) → Contains (owed_in seat.me.0.core.mode) d → d.0 < position_count seat.me.0.about },
    ghost looked_room: { most_inputs seat.me.0.about ≤ vec_capacity looked },
    ghost owed_room: { most_dependents seat.me.0.about ≤ vec_capacity owed },
}

/// One seat for each worker, by their numbers.
pub type WorkerSeats = Sequence<WorkerSeat>;
