ghost use Rattle.std.specs.Prelude.{◌≡◌, ◌<◌, ◌≤◌, [], length, map, take, All, sum_by, vec_capacity};
ghost use Rattle.std.specs.Mem.Slots.{slots_items, slots_len, IsFull};
ghost use Rattle.rule_terms.specs.Greatest.{AreWithin, IsAbove, IsGreatest};
ghost use Rattle.dep_graph.specs.Graph.{budget_of};
ghost use Rattle.fix_core.specs.declared.state.CoreMode.TheVariants.{Idle};
ghost use Rattle.fix_core.specs.Machine.{facts_of};
ghost use Rattle.word_rule.specs.Views.{after_joining};
ghost use Rattle.word_rule.specs.Ends.{Ended, HasTaken};
ghost use Rattle.word_rule.specs.Belongs.{core_of, number_of, system_in, graph_in, IsSeatOf, AreSeatsOf, KnowsAll};

use crate::seat::{WorkerSeat, WorkerSeats};
use crate::view::Joining;
use crate::words::LatticeWords;
use atomic_table::{Closed, Seat};
use attr_ids::WordList;
use lattice_words::word::FACTS;
use std::alloc::Global;

/// Puts the facts of the first so many words into the list.
fn copy_facts(closed: &Closed<(), Global>, into: &mut Vec<u64>, count: usize)
    requires full { IsFull closed.now.words }
    requires words { count ≤ slots_len closed.now.words }
    requires unfilled { into.old.items ≡ [] }
    requires room { count ≤ vec_capacity into.old }
    ensures { into.new.items ≡ map facts_of (take count (slots_items closed.now.words)) }
{
    for p in 0..count {
        into.push_reserved(closed.word(p) & FACTS);
    }
}

impl<'s> LatticeWords<'s> {
    /// Seat 0 takes in another seat.
    fn join(&self, first: &mut WorkerSeat, other: WorkerSeat)
        requires first { IsSeatOf self.now first.old × (number_of first.old ≡ 0) }
        requires other { IsSeatOf self.now other × ((core_of other).mode ≡ Idle) }
        ensures { (first.new.seat.table_id ≡ first.old.seat.table_id) × (first.new.seat.me.0 ≡ after_joining first.old.seat.me.0 other.seat.me.0) }
    {
        let WorkerSeat {
            seat,
            number: _,
            place: _,
            looked: _looked,
            owed: _owed,
            next: _,
        } = other;
        self.table
            .shared
            .join_seat::<Joining>(&mut first.seat, seat);
    }

    /// Seat 0, once it took in all others.
    fn join_all(&self, seats: WorkerSeats) -> WorkerSeat
        requires seats { AreSeatsOf self.now seats }
        requires idle { All (λ seat. (core_of seat).mode ≡ Idle) seats }
        ensures of { IsSeatOf self.now result × (number_of result ≡ 0) × ((core_of result).mode ≡ Idle) }
        ensures taken { HasTaken (length (system_in self.now).masks) seats result }
    {
        let mut others = seats.into_vec();
        let mut first = others.remove(0);
        while let Some(other) = others.pop() {
            self.join(&mut first, other);
        }
        first
    }

    /// The facts of the words as they are left, which are those of a state that meets the rule.
    fn finish(self, first: WorkerSeat) -> WordList
        requires { IsSeatOf self first }
        ensures { Ended self.entry.table.shared.key first.seat.id first.seat.me.0 result }
    {
        let LatticeWords {
            system,
            graph: _,
            table,
            mut into,
        } = self;
        let WorkerSeat {
            seat,
            number: _,
            place: _,
            looked: _looked,
            owed: _owed,
            next: _,
        } = first;
        let closed = table.close_with(seat);
        copy_facts(&closed, &mut into, system.count() as usize);
        closed.free();
        WordList::from_vec(into)
    }

    /// The facts of the words that the seats leave. They lie within the masks and contain those of the greatest
    /// list, and are the greatest list where every seat knows every position.
    pub fn close(self, seats: WorkerSeats) -> WordList
        requires seats { AreSeatsOf self seats }
        requires idle { All (λ seat. (core_of seat).mode ≡ Idle) seats }
        ensures long { length result ≡ length (system_in self.entry).masks }
        ensures within { AreWithin result (system_in self.entry).masks }
        ensures above { IsAbove (system_in self.entry) result }
        ensures greatest { All (KnowsAll (length (system_in self.entry).masks)) (map core_of seats) → IsGreatest (system_in self.entry) result }
        ensures budget { sum_by (λ seat. (core_of seat).took) seats ≤ budget_of (system_in self.entry) (graph_in self.entry) }
    {
        let first = self.join_all(seats);
        self.finish(first)
    }
}
