//! One turn: a dirty word is taken up, evaluated and cut, and its readers are told.
ghost use Rattle.std.specs.Prelude.{◌≡◌, ◌+◌, ◌++◌, ◌∷◌, ◌<◌, ◌≤◌, ◌^◌, [], true, length, MatchBool};
ghost use Rattle.rule_terms.specs.System.{IsSystem};
ghost use Rattle.fix_core.specs.declared.state.CoreMode.TheVariants.{Idle};
ghost use Rattle.steal_pool.specs.Pools.{own_log};
ghost use Rattle.fix_core.specs.Machine.{has_all, owing};
ghost use Rattle.word_rule.specs.Views.{looked_in, owed_in};
ghost use Rattle.word_rule.specs.Belongs.{core_of, system_in, IsSeatOf, IsSameSeat};
ghost use Rattle.workers.specs.Workers.{budget_in, count_in, IsPoolOf, IsWorkerOf, HasOpen, HasTaken, HasTold};

use crate::worker::Worker;
use attr_ids::PosId;
use attr_io::Gate;
use word_rule::{LatticeWords, WorkerSeat};

/// What a worker does its turns with, beside what it changes.
#[derive(Drop)]
pub(crate) struct Shift<'a, 's, G> {
    pub words: &'a LatticeWords<'s>,
    pub turns: u64,
    pub gate: &'a G,
    pub count: u32,
    /// The most hints that the worker's own pool is to hold.
    pub most: u32,
    ghost counted: { count ≡ count_in words.now },
    ghost system: { IsSystem (system_in words.now) },
}

/// Looks at every input of the open position.
fn look_all(words: &LatticeWords, seat: &mut WorkerSeat, p: PosId)
    requires system { IsSystem (system_in words.now) }
    requires of { IsSeatOf words.now seat.old }
    requires position { p.0 < count_in words.now }
    requires open { HasOpen (system_in words.now) p (core_of seat.old) }
    ensures same { IsSameSeat seat.old seat.new }
    ensures open { HasOpen (system_in words.now) p (core_of seat.new) }
    ensures all { has_all (looked_in (core_of seat.new).mode) ≡ true }
    ensures took { (core_of seat.new).took ≡ (core_of seat.old).took }
{
    let inputs = words.system().inputs(p).len();
    for i in 0..inputs {
        words.look(seat, i as u32);
    }
}

impl Worker {
    /// Gives a hint to the worker's own pool, unless the pool holds as many as it is to.
    fn hint(&mut self, most: u32, d: PosId)
        requires { d.0 < (own_log self.old.own).count }
        ensures { HasTold self.old self.new × (self.new.seat ≡ self.old.seat) × ((own_log self.new.own).count ≡ (own_log self.old.own).count) }
    {
        if self.held < most {
            self.own.give(d);
            self.held += 1;
        }
    }

    /// Tells every position that the seat owes, and gives each that was not told before to the worker's own pool, unless
    /// the pool holds as many as it is to. A hint that is not given is found by a look through all words.
    fn tell_all(&mut self, words: &LatticeWords, most: u32)
        requires of { IsSeatOf words.now self.old.seat }
        requires owing { (core_of self.old.seat).mode ≡ owing (owed_in (core_of self.old.seat).mode) }
        requires pool { IsPoolOf (count_in words.now) self.old.own }
        ensures same { IsSameSeat self.old.seat self.new.seat }
        ensures idle { (core_of self.new.seat).mode ≡ Idle }
        ensures took { (core_of self.new.seat).took ≡ (core_of self.old.seat).took }
        ensures pool { IsPoolOf (count_in words.now) self.new.own }
        ensures told { HasTold self.old self.new }
    {
        while let Some(d) = words.owed(&self.seat) {
            if words.tell(&mut self.seat, d) {
                self.hint(most, d);
            }
        }
    }

    /// One turn with the position that the seat took up. The gate hears of it before the first look.
    fn turn<G: Gate>(&mut self, shift: &Shift<G>, p: PosId)
        requires of { IsSeatOf shift.now.words.now self.old.seat }
        requires position { p.0 < count_in shift.now.words.now }
        requires open { HasOpen (system_in shift.now.words.now) p (core_of self.old.seat) }
        requires pool { IsPoolOf (count_in shift.now.words.now) self.old.own }
        requires turns { self.old.taken < shift.now.turns }
        ensures same { IsSameSeat self.old.seat self.new.seat }
        ensures idle { (core_of self.new.seat).mode ≡ Idle }
        ensures took { (core_of self.new.seat).took ≡ (core_of self.old.seat).took }
        ensures pool { IsPoolOf (count_in shift.now.words.now) self.new.own }
        ensures told { (self.new.robber ≡ self.old.robber) × (self.new.number ≡ self.old.number) × (self.new.taken ≡ self.old.taken + 1) }
    {
        self.taken += 1;
        shift.gate.at_turn(self.number, self.taken);
        look_all(shift.words, &mut self.seat, p);
        let new = shift.words.value(&self.seat);
        shift.words.cut(&mut self.seat, new);
        self.tell_all(shift.words, shift.most);
    }

    /// Takes the position up if it is dirty, and does a turn with it. Answers whether it did. Where it did not, the seat
    /// knows the position, and all that it knew.
    pub(crate) fn attempt<G: Gate>(&mut self, shift: &Shift<G>, p: PosId) -> bool
        requires worker { IsWorkerOf shift.now.words.now self.old }
        requires position { p.0 < count_in shift.now.words.now }
        requires turns { self.old.taken < shift.now.turns }
        ensures taken { HasTaken shift.now.words.now self.old self.new }
        ensures counted { MatchBool result (self.new.taken ≡ self.old.taken + 1) (self.new.taken ≡ self.old.taken) }
        ensures known { MatchBool result (self.new.taken ≡ self.old.taken + 1) ((core_of self.new.seat).known ≡ (core_of self.old.seat).known ++ p ∷ []) }
    {
        if shift.words.take(&mut self.seat, p).is_none() {
            return false;
        }
        self.turn(shift, p);
        true
    }
}
