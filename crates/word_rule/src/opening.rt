ghost use Rattle.std.specs.Prelude.{◌≡◌, ℕ, ◌<◌, ◌≤◌, [], ◌∷◌, ◌++◌, length, IfOk, All};
ghost use Rattle.rule_terms.specs.System.{inputs_of};
ghost use Rattle.dep_graph.specs.Graph.{row_at, IsGraphOf};
ghost use Rattle.fix_core.specs.Machine.{new_seat, opening_words};
ghost use Rattle.word_rule.specs.Views.{first_view};
ghost use Rattle.word_rule.specs.Seats.{most_inputs, most_dependents};
ghost use Rattle.word_rule.specs.Belongs.{core_of, system_in, graph_in, workers_in, AreSeatsOf};

use crate::seat::{WorkerSeat, WorkerSeats};
use crate::view::{Key, Making, View};
use crate::words::LatticeWords;
use atomic_table::{Seat, Table};
use attr_ids::{NoMemory, PosId, Sequence};
use dep_graph::DepGraph;
use lattice_words::word::DIRTY;
use rule_terms::System;
use std::alloc::Global;
use std::snapshot::Snapshot;

/// The words at the opening: each its mask, dirty for one seat alone. Behind them is a word that stays 0, so that a
/// system without positions has a word too.
fn opening_list(alloc: Global, s: &System, workers: u8) -> Result<Vec<u64>, NoMemory>
    requires { (0 < workers) × (workers ≤ 16) }
    ensures { IfOk result (λ words. words.items ≡ opening_words workers 0 s.now.masks ++ 0 ∷ []) }
{
    let mut words = Vec::with_capacity(alloc, s.count() as usize + 1)?;
    for p in 0..s.count() {
        let seat = p % workers as u32;
        words.push(s.mask(PosId(p)) | 1 << (DIRTY + seat))?;
    }
    words.push(0)?;
    Ok(words)
}

/// No position has more inputs.
fn widest_inputs(s: &System) -> usize
    ensures { (p : ℕ) → p < length s.now.masks → length (inputs_of s.now p) ≤ result }
{
    let mut widest = 0;
    for p in 0..s.count() {
        let inputs = s.inputs(PosId(p)).len();
        if widest < inputs {
            widest = inputs;
        }
    }
    widest
}

/// No position has more dependents.
fn widest_dependents(s: &System, g: &DepGraph) -> usize
    requires { length g.now ≡ length s.now.masks }
    ensures { (p : ℕ) → p < length s.now.masks → length (row_at g.now p).dependents ≤ result }
{
    let mut widest = 0;
    for p in 0..s.count() {
        let dependents = g.of(PosId(p)).len();
        if widest < dependents {
            widest = dependents;
        }
    }
    widest
}

impl WorkerSeat {
    /// A seat that has done nothing yet, with room for so many inputs and dependents.
    fn new(
        alloc: Global,
        seat: Seat<(), View>,
        number: u8,
        inputs: usize,
        dependents: usize,
    ) -> Result<WorkerSeat, NoMemory>
        requires number { (number ≡ seat.me.0.number) × (number < 16) }
        requires fresh { (seat.me.0.core ≡ new_seat) × (seat.me.1 ≡ []) }
        requires room { (most_inputs seat.me.0.about ≤ inputs) × (most_dependents seat.me.0.about ≤ dependents) }
        ensures { IfOk result (λ made. (made.seat.table_id ≡ seat.table_id) × (made.seat.me ≡ seat.me)) }
    {
        let looked = Vec::with_capacity(alloc, inputs)?;
        let owed = Vec::with_capacity(alloc, dependents)?;
        Ok(WorkerSeat {
            seat,
            number,
            place: None,
            looked,
            owed,
            next: 0,
        })
    }
}

impl<'s> LatticeWords<'s> {
    /// The words, and seat 0.
    fn with_first(
        alloc: Global,
        s: &'s System,
        g: &'s DepGraph,
        workers: u8,
    ) -> Result<(LatticeWords<'s>, Seat<(), View>), NoMemory>
        requires graph { IsGraphOf s.now g.now }
        requires workers { (0 < workers) × (workers ≤ 16) }
        ensures words { IfOk result (λ made. (system_in made.0 ≡ s.now) × (graph_in made.0 ≡ g.now) × (workers_in made.0 ≡ workers)) }
        ensures first { IfOk result (λ made. (made.1.table_id ≡ made.0.table.shared.table_id) × (made.1.me ≡ (first_view made.0.table.shared.key, []))) }
    {
        let list = opening_list(alloc, s, workers)?;
        let into = Vec::with_capacity(alloc, s.count() as usize)?;
        let about = Key {
            system: Snapshot::of(s),
            graph: Snapshot::of(g),
            workers,
        };
        let (table, seat) = Table::of_words(alloc, list.as_slice(), &about)?;
        let words = LatticeWords {
            system: s,
            graph: g,
            table,
            into,
        };
        Ok((words, seat))
    }

    /// All seats, of which seat 0 makes the others.
    fn all_seats(
        &self,
        alloc: Global,
        mut first: Seat<(), View>,
        workers: u8,
    ) -> Result<WorkerSeats, NoMemory>
        requires first { (first.table_id ≡ self.now.table.shared.table_id) × (first.me ≡ (first_view self.now.table.shared.key, [])) }
        requires workers { workers ≡ workers_in self.now }
        ensures { IfOk result (λ seats. AreSeatsOf self.now seats × All (λ seat. core_of seat ≡ new_seat) seats) }
    {
        let inputs = widest_inputs(self.system);
        let dependents = widest_dependents(self.system, self.graph);
        let mut seats = Vec::with_capacity(alloc, workers as usize)?;
        for number in 1..workers {
            let seat = self.table.shared.split_seat::<Making>(&mut first);
            let made = WorkerSeat::new(alloc, seat, number, inputs, dependents)?;
            seats.push(made)?;
        }
        let made = WorkerSeat::new(alloc, first, 0, inputs, dependents)?;
        seats.insert(0, made)?;
        Ok(Sequence::from_vec(seats))
    }

    /// The words of the system's positions, each its mask and dirty for the seat of its number modulo the number of
    /// workers, and a seat for each worker, which knows nothing. All room that a run takes is taken here.
    pub fn open(
        alloc: Global,
        s: &'s System,
        g: &'s DepGraph,
        workers: u8,
    ) -> Result<(LatticeWords<'s>, WorkerSeats), NoMemory>
        requires graph { IsGraphOf s.now g.now }
        requires workers { (0 < workers) × (workers ≤ 16) }
        ensures words { IfOk result (λ made. (system_in made.0 ≡ s.now) × (graph_in made.0 ≡ g.now) × (workers_in made.0 ≡ workers)) }
        ensures seats { IfOk result (λ made. AreSeatsOf made.0 made.1) }
        ensures fresh { IfOk result (λ made. All (λ seat. core_of seat ≡ new_seat) made.1) }
    {
        let (words, first) = LatticeWords::with_first(alloc, s, g, workers)?;
        let seats = words.all_seats(alloc, first, workers)?;
        Ok((words, seats))
    }
}
