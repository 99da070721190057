ghost use Rattle.std.specs.Prelude.{◌≡◌, ◌+◌, ◌^◌, ◌<◌, ◌≤◌, true, false, length, MatchOption, Some, slice_get, ◌==◌, if◌then◌else◌, Contains};
ghost use Rattle.rule_terms.specs.System.{inputs_of, value_at};
ghost use Rattle.dep_graph.specs.Graph.{budget_of};
ghost use Rattle.fix_core.specs.declared.state.CoreMode.TheVariants.{Idle};
ghost use Rattle.fix_core.specs.Machine.{facts_of, dirty_at, is_clean, lost_by, has_all, values_of, after_take, after_look, after_cut, after_tell, after_clear};
ghost use Rattle.word_rule.specs.Views.{opened, looked_in, owed_in};
ghost use Rattle.word_rule.specs.Belongs.{core_of, number_of, found_by, system_in, graph_in, IsSeatOf, IsSameSeat, IsOpen};

use crate::lists::{clear_to, owe, strike};
use crate::plays::{ClearStep, CutStep, LookStep, TakeStep, TellStep};
use crate::seat::WorkerSeat;
use crate::words::LatticeWords;
use attr_ids::PosId;
use lattice_words::word::{CLEAN, DIRTY, FACTS, KEPT};
use rule_terms::System;

impl<'s> LatticeWords<'s> {
    /// The system whose positions have these words.
    pub fn system(&self) -> &System
        ensures { result.now ≡ system_in self.now }
    {
        self.system
    }

    /// Takes the position up if a dirty bit of its word is set: clears them all, and answers the facts. Answers
    /// `None` exactly where none was set. The seat knows the position from then on.
    pub fn take(&self, seat: &mut WorkerSeat, p: PosId) -> Option<u64>
        requires of { IsSeatOf self.now seat.old }
        requires idle { (core_of seat.old).mode ≡ Idle }
        requires position { p.0 < length (system_in self.now).masks }
        ensures same { IsSameSeat seat.old seat.new }
        ensures took { core_of seat.new ≡ after_take (system_in self.now) p (found_by seat.new) (core_of seat.old) }
        ensures answer { MatchOption result (is_clean (found_by seat.new) ≡ true) (λ facts. (is_clean (found_by seat.new) ≡ false) ×
            (facts ≡ facts_of (found_by seat.new))) }
        ensures budget { (core_of seat.new).took ≤ budget_of (system_in self.now) (graph_in self.now) }
    {
        let word = self
            .table
            .shared
            .fetch_and::<TakeStep>(&mut seat.seat, p.0 as usize, CLEAN);
        if word >> DIRTY == 0 {
            return None;
        }
        clear_to(&mut seat.looked, self.system.inputs(p).len());
        seat.place = Some(p);
        Some(word & FACTS)
    }

    /// Looks at the input number `i` of the position that the seat has open: keeps its facts, and answers them.
    pub fn look(&self, seat: &mut WorkerSeat, i: u32) -> u64
        requires of { IsSeatOf self.now seat.old }
        requires open { IsOpen (core_of seat.old).mode }
        requires input { i < length (inputs_of (system_in self.now) (opened (core_of seat.old).mode).0) }
        ensures same { IsSameSeat seat.old seat.new }
        ensures looked { core_of seat.new ≡ after_look (opened (core_of seat.old).mode) (looked_in (core_of seat.old).mode) i (found_by seat.new)
            (core_of seat.old) }
        ensures answer { result ≡ facts_of (found_by seat.new) }
    {
        let Some(p) = seat.place else { unreachable!() };
        let input = self.system.inputs(p)[i as usize];
        let word = self
            .table
            .shared
            .load::<LookStep>(&mut seat.seat, input.0 as usize);
        let facts = word & FACTS;
        seat.looked[i as usize] = facts;
        facts
    }

    /// What the term of the open position leaves of it over the values that the seat looked at.
    pub fn value(&self, seat: &WorkerSeat) -> u64
        requires of { IsSeatOf self.now seat.now }
        requires open { IsOpen (core_of seat.now).mode }
        requires all { has_all (looked_in (core_of seat.now).mode) ≡ true }
        ensures { result ≡ value_at (system_in self.now) (opened (core_of seat.now).mode).0 (values_of (looked_in (core_of seat.now).mode)) }
    {
        let Some(p) = seat.place else { unreachable!() };
        self.system.eval(p, seat.looked.as_slice())
    }

    /// Cuts the open position to `new`, which is what its term leaves, and answers the facts that it took away.
    /// The seat owes the dependents that read one of these.
    pub fn cut(&self, seat: &mut WorkerSeat, new: u64) -> u64
        requires of { IsSeatOf self.now seat.old }
        requires open { IsOpen (core_of seat.old).mode }
        requires all { has_all (looked_in (core_of seat.old).mode) ≡ true }
        requires value { new ≡ value_at (system_in self.now) (opened (core_of seat.old).mode).0 (values_of (looked_in (core_of seat.old).mode)) }
        ensures same { IsSameSeat seat.old seat.new }
        ensures cut { core_of seat.new ≡ after_cut (graph_in self.now) (opened (core_of seat.old).mode) new (found_by seat.new) (core_of seat.old) }
        ensures answer { result ≡ lost_by new (found_by seat.new) }
    {
        let Some(p) = seat.place else { unreachable!() };
        let word = self
            .table
            .shared
            .fetch_and::<CutStep>(&mut seat.seat, p.0 as usize, new | KEPT);
        let lost = word & FACTS ^ word & (new | KEPT) & FACTS;
        owe(&mut seat.owed, self.graph, p, lost);
        seat.looked.clear();
        seat.next = 0;
        seat.place = None;
        lost
    }

    /// The first position that the seat owes.
    pub fn owed(&self, seat: &WorkerSeat) -> Option<PosId>
        ensures { result ≡ slice_get (owed_in (core_of seat.now).mode) 0 }
    {
        seat.owed.get(seat.next).copied()
    }

    /// Tells a position that the seat owes: sets the seat's own dirty bit in its word, and answers whether it was unset.
    pub fn tell(&self, seat: &mut WorkerSeat, d: PosId) -> bool
        requires of { IsSeatOf self.now seat.old }
        requires owed { Contains (owed_in (core_of seat.old).mode) d }
        ensures same { IsSameSeat seat.old seat.new }
        ensures told { core_of seat.new ≡ after_tell (number_of seat.old) d (owed_in (core_of seat.old).mode) (found_by seat.new) (core_of seat.old) }
        ensures answer { result ≡ (dirty_at (found_by seat.new) (number_of seat.old) == 0) }
    {
        let place = DIRTY + seat.number as u32;
        let word = self
            .table
            .shared
            .fetch_or::<TellStep>(&mut seat.seat, d.0 as usize, 1 << place);
        strike(&mut seat.owed, &mut seat.next, d);
        word >> place & 1 == 0
    }

    /// Whether the seat's own dirty bit is unset in the word of the position. The seat knows that from then on.
    pub fn clear(&self, seat: &mut WorkerSeat, p: PosId) -> bool
        requires of { IsSeatOf self.now seat.old }
        requires idle { (core_of seat.old).mode ≡ Idle }
        requires position { p.0 < length (system_in self.now).masks }
        ensures same { IsSameSeat seat.old seat.new }
        ensures cleared { core_of seat.new ≡ (if dirty_at (found_by seat.new) (number_of seat.old) == 0 then after_clear p (core_of seat.old) else
            core_of seat.old) }
        ensures answer { result ≡ (dirty_at (found_by seat.new) (number_of seat.old) == 0) }
    {
        let word = self
            .table
            .shared
            .load::<ClearStep>(&mut seat.seat, p.0 as usize);
        word >> (DIRTY + seat.number as u32) & 1 == 0
    }
}
