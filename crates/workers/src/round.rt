//! One round: hints of the worker's own pool, one try at each other pool, and where none of these named a dirty
//! word, all words.
ghost use Rattle.std.specs.Prelude.{◌≡◌, ◌+◌, ◌++◌, ◌∷◌, ◌<◌, ◌≤◌, [], MatchBool};
ghost use Rattle.word_rule.specs.Belongs.{core_of, KnowsAll};
ghost use Rattle.workers.specs.Workers.{count_in, IsWorkerOf, HasTaken};

use crate::turn::Shift;
use crate::worker::Worker;
use attr_ids::PosId;
use attr_io::Gate;
use steal_pool::Robbed;

/// The most hints that a round draws.
const HINTS: usize = 64;

impl Worker {
    /// Takes up the words that hints of the worker's own pool name.
    fn draw_hints<G: Gate>(&mut self, shift: &Shift<G>)
        requires worker { IsWorkerOf shift.now.words.now self.old }
        requires turns { self.old.taken ≤ shift.now.turns }
        ensures taken { HasTaken shift.now.words.now self.old self.new }
        ensures turns { self.new.taken ≤ shift.now.turns }
    {
        'drawing: for _ in 0..HINTS {
            if self.taken == shift.turns {
                break;
            }
            let Some(p) = self.own.draw() else {
                self.held = 0;
                break;
            };
            self.held = self.held.saturating_sub(1);
            self.attempt(shift, p);
        }
    }

    /// Takes up the words that a hint of each other pool names.
    fn rob_pools<G: Gate>(&mut self, shift: &Shift<G>)
        requires worker { IsWorkerOf shift.now.words.now self.old }
        requires turns { self.old.taken ≤ shift.now.turns }
        ensures taken { HasTaken shift.now.words.now self.old self.new }
        ensures turns { self.new.taken ≤ shift.now.turns }
    {
        for from in 0..self.robber.pool_count() {
            if self.taken == shift.turns {
                break;
            }
            if from == self.number as usize {
                continue;
            }
            let Robbed::Got { p } = self.robber.rob(from as u8) else {
                continue;
            };
            self.attempt(shift, p);
        }
    }

    /// Takes the position up if the seat's own dirty bit is set in its word, and does a turn with it. Answers whether it
    /// did. Where it did not, the seat knows the position, and all that it knew.
    fn visit<G: Gate>(&mut self, shift: &Shift<G>, p: PosId) -> bool
        requires worker { IsWorkerOf shift.now.words.now self.old }
        requires position { p.0 < count_in shift.now.words.now }
        requires turns { self.old.taken < shift.now.turns }
        ensures taken { HasTaken shift.now.words.now self.old self.new }
        ensures counted { MatchBool result (self.new.taken ≡ self.old.taken + 1) (self.new.taken ≡ self.old.taken) }
        ensures known { MatchBool result (self.new.taken ≡ self.old.taken + 1) ((core_of self.new.seat).known ≡ (core_of self.old.seat).known ++ p ∷ []) }
    {
        if shift.words.clear(&mut self.seat, p) {
            return false;
        }
        self.attempt(shift, p)
    }

    /// Looks through all words for the seat's own dirty bits, and takes up the words that have one. Where there was
    /// none, the seat knows every position.
    fn scan<G: Gate>(&mut self, shift: &Shift<G>)
        requires worker { IsWorkerOf shift.now.words.now self.old }
        requires turns { self.old.taken < shift.now.turns }
        ensures taken { HasTaken shift.now.words.now self.old self.new }
        ensures turns { self.new.taken ≤ shift.now.turns }
        ensures known { self.new.taken ≡ self.old.taken → KnowsAll (count_in shift.now.words.now) (core_of self.new.seat) }
    {
        for p in 0..shift.count {
            if self.taken == shift.turns {
                break;
            }
            self.visit(shift, PosId(p));
        }
    }

    /// One round. It takes a dirty word up, or leaves the seat knowing every position.
    pub(crate) fn round<G: Gate>(&mut self, shift: &Shift<G>)
        requires worker { IsWorkerOf shift.now.words.now self.old }
        requires turns { self.old.taken < shift.now.turns }
        ensures taken { HasTaken shift.now.words.now self.old self.new }
        ensures turns { self.new.taken ≤ shift.now.turns }
        ensures known { self.new.taken ≡ self.old.taken → KnowsAll (count_in shift.now.words.now) (core_of self.new.seat) }
    {
        let before = self.taken;
        self.draw_hints(shift);
        self.rob_pools(shift);
        if self.taken == before {
            self.scan(shift);
        }
    }
}
