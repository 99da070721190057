ghost use Rattle.std.specs.Prelude.{◌≡◌, ◌≢◌, ℕ, ◌<◌, ◌≤◌, List, length, map, true, Option, slice_get, Some, All, Contains};
ghost use Rattle.attr_ids.specs.declared.ids.PosId.{PosId};
ghost use Rattle.rule_terms.specs.Slots.{input_at};
ghost use Rattle.rule_terms.specs.System.{System, IsSystem, inputs_of, value_at};
ghost use Rattle.rule_terms.specs.Greatest.{AreWithin, IsAbove, IsGreatest};
ghost use Rattle.dep_graph.specs.Row.{Row};
ghost use Rattle.dep_graph.specs.Graph.{IsGraphOf};
ghost use Rattle.fix_core.specs.declared.event.CoreEvent.{CoreEvent};
ghost use Rattle.fix_core.specs.declared.state.CoreState.{CoreState};
ghost use Rattle.fix_core.specs.declared.state.CoreSeat.{CoreSeat};
ghost use Rattle.fix_core.specs.declared.state.CoreMode.TheVariants.{Idle, Open, Owes};
ghost use Rattle.fix_core.specs.Machine.{facts_of, dirty_at, cleaned, dirtied, cut_to, values_of, has_all, word_at, written, seated, joined};
ghost use Rattle.fix_core.specs.Machine.{after_take, after_look, after_cut, after_tell, after_clear, step, run_of, IsEvent, opening};
ghost use Rattle.fix_core.specs.Invariant.{AreOwed, IsCore, IsQuiet};

/// The opening state meets the core invariant.
pub fn the_opening_meets_the_core()
    ensures { (s : System) (graph : List Row) (workers : ℕ) → IsSystem s → 0 < workers → workers ≤ 16 → IsCore s graph workers (opening s workers) }
{}

/// An idle seat that takes a position up keeps the core invariant, whether the word was dirty or not.
pub fn a_take_keeps_the_core()
    ensures { (s : System) (graph : List Row) (workers : ℕ) → workers ≤ 16 → (c : CoreState) → IsCore s graph workers c →
        (w : ℕ) (seat : CoreSeat) → slice_get c.seats w ≡ Some seat → (p : PosId) → p.0 < length s.masks → seat.mode ≡ Idle →
        IsCore s graph workers (written c p.0 (cleaned (word_at c p.0)) w (after_take s p (word_at c p.0) seat)) }
{}

/// A look at an input of the position that the seat has open keeps it.
pub fn a_look_keeps_the_core()
    ensures { (s : System) (graph : List Row) (workers : ℕ) → workers ≤ 16 → (c : CoreState) → IsCore s graph workers c →
        (w : ℕ) (seat : CoreSeat) → slice_get c.seats w ≡ Some seat → (p : PosId) (looked : List (Option ℕ)) (i : ℕ) → seat.mode ≡ Open p looked →
        IsCore s graph workers (seated c w (after_look p looked i (word_at c (input_at (inputs_of s p.0) i).0) seat)) }
{}

/// A cut of the position that the seat has open, once all its inputs were looked at, keeps it.
pub fn a_cut_keeps_the_core()
    ensures { (s : System) (graph : List Row) (workers : ℕ) → workers ≤ 16 → IsSystem s → IsGraphOf s graph → (c : CoreState) → IsCore s graph workers c →
        (w : ℕ) (seat : CoreSeat) → slice_get c.seats w ≡ Some seat → (p : PosId) (looked : List (Option ℕ)) → seat.mode ≡ Open p looked →
        has_all looked ≡ true →
        let new = value_at s p.0 (values_of looked) in
        IsCore s graph workers (written c p.0 (cut_to new (word_at c p.0)) w (after_cut graph p new (word_at c p.0) seat)) }
{}

/// A seat that owes positions keeps it when it tells one.
pub fn a_tell_keeps_the_core()
    ensures { (s : System) (graph : List Row) (workers : ℕ) → workers ≤ 16 → (c : CoreState) → IsCore s graph workers c →
        (w : ℕ) (seat : CoreSeat) → slice_get c.seats w ≡ Some seat → (d : PosId) (list : List PosId) → d.0 < length s.masks → seat.mode ≡ Owes list →
        IsCore s graph workers (written c d.0 (dirtied (word_at c d.0) w) w (after_tell w d list (word_at c d.0) seat)) }
{}

/// A seat that sees its own dirty bit unset in a word keeps it when it comes to know that.
pub fn a_clear_keeps_the_core()
    ensures { (s : System) (graph : List Row) (workers : ℕ) → workers ≤ 16 → (c : CoreState) → IsCore s graph workers c →
        (w : ℕ) (seat : CoreSeat) → slice_get c.seats w ≡ Some seat → (p : PosId) → dirty_at (word_at c p.0) w ≡ 0 →
        IsCore s graph workers (seated c w (after_clear p seat)) }
{}

/// Joining an idle seat into another keeps it.
pub fn a_join_keeps_the_core()
    ensures { (s : System) (graph : List Row) (workers : ℕ) → workers ≤ 16 → (c : CoreState) (u : ℕ) (first : CoreSeat) (w : ℕ) (other : CoreSeat) → u ≢ w →
        slice_get c.seats u ≡ Some first → slice_get c.seats w ≡ Some other → other.mode ≡ Idle → IsCore s graph workers c →
        IsCore s graph workers (joined c u first w other) }
{}

/// Every event keeps the core invariant, whether it is enabled or not.
pub fn every_event_keeps_the_core()
    ensures { (s : System) (graph : List Row) → IsSystem s → IsGraphOf s graph → (workers : ℕ) → workers ≤ 16 → (c : CoreState) → IsCore s graph workers c →
        (e : CoreEvent) → IsEvent (length s.masks) workers e → IsCore s graph workers (step s graph c e) }
{}

/// So every list of events does, and every state that is reached from the opening meets it.
pub fn every_list_of_events_keeps_the_core()
    ensures kept { (s : System) (graph : List Row) → IsSystem s → IsGraphOf s graph → (workers : ℕ) → workers ≤ 16 → (events : List CoreEvent) →
        All (IsEvent (length s.masks) workers) events → (c : CoreState) → IsCore s graph workers c → IsCore s graph workers (run_of s graph c events) }
    ensures reached { (s : System) (graph : List Row) → IsSystem s → IsGraphOf s graph → (workers : ℕ) → 0 < workers → workers ≤ 16 →
        (events : List CoreEvent) →
        All (IsEvent (length s.masks) workers) events → IsCore s graph workers (run_of s graph (opening s workers) events) }
{}

/// The facts of every state that meets the core invariant lie within the masks, and contain every list of
/// words that supports itself, the greatest one among them.
pub fn every_state_is_above()
    ensures within { (s : System) (graph : List Row) (workers : ℕ) (c : CoreState) → IsCore s graph workers c → AreWithin (map facts_of c.words) s.masks }
    ensures above { (s : System) (graph : List Row) (workers : ℕ) (c : CoreState) → IsCore s graph workers c → IsAbove s (map facts_of c.words) }
{}

/// A state that meets the core invariant and is at rest has the greatest list of words.
pub fn a_quiet_state_has_the_greatest_words()
    ensures { (s : System) (graph : List Row) (workers : ℕ) (c : CoreState) → IsCore s graph workers c → IsQuiet c → IsGreatest s (map facts_of c.words) }
{}

/// What a seat owes are positions of the system.
pub fn owed_positions_are_positions()
    ensures { (s : System) (graph : List Row) → IsGraphOf s graph → (list : List PosId) → AreOwed s graph list → (d : PosId) → Contains list d →
        d.0 < length s.masks }
{}
