ghost use Rattle.std.specs.Prelude.{◌≡◌, ◌≢◌, ℕ, ◌<◌, ◌≤◌, List, length, Option, slice_get, Some, All, Contains, sum_by};
ghost use Rattle.attr_ids.specs.declared.ids.PosId.{PosId};
ghost use Rattle.rule_terms.specs.Slots.{input_at};
ghost use Rattle.rule_terms.specs.System.{System, IsSystem, inputs_of};
ghost use Rattle.dep_graph.specs.Row.{Row};
ghost use Rattle.dep_graph.specs.Graph.{IsGraphOf, budget_of};
ghost use Rattle.fix_core.specs.declared.event.CoreEvent.{CoreEvent};
ghost use Rattle.fix_core.specs.declared.state.CoreState.{CoreState};
ghost use Rattle.fix_core.specs.declared.state.CoreSeat.{CoreSeat};
ghost use Rattle.fix_core.specs.declared.state.CoreMode.TheVariants.{Idle, Open, Owes};
ghost use Rattle.fix_core.specs.Machine.{cleaned, dirtied, cut_to, word_at, written, seated, joined, after_take, after_look, after_cut, after_tell};
ghost use Rattle.fix_core.specs.Machine.{after_clear};
ghost use Rattle.fix_core.specs.Machine.{step, run_of, IsEvent, opening};
ghost use Rattle.fix_core.specs.Invariant.{EachSeat, IsCore};
ghost use Rattle.fix_core.specs.Counts.{AreCounted};

/// The two counts hold at the opening.
pub fn the_opening_meets_the_counts()
    ensures { (s : System) (graph : List Row) (workers : ℕ) → IsSystem s → AreCounted s graph (opening s workers) }
{}

/// Taking a dirty word up is paid for by the dirty bits that it clears.
pub fn a_take_keeps_the_counts()
    ensures { (s : System) (graph : List Row) → IsGraphOf s graph → (workers : ℕ) (c : CoreState) → IsCore s graph workers c → AreCounted s graph c →
        (w : ℕ) (seat : CoreSeat) → slice_get c.seats w ≡ Some seat → (p : PosId) → p.0 < length s.masks → seat.mode ≡ Idle →
        AreCounted s graph (written c p.0 (cleaned (word_at c p.0)) w (after_take s p (word_at c p.0) seat)) }
{}

pub fn a_look_keeps_the_counts()
    ensures { (s : System) (graph : List Row) → IsGraphOf s graph → (workers : ℕ) (c : CoreState) → IsCore s graph workers c → AreCounted s graph c →
        (w : ℕ) (seat : CoreSeat) → slice_get c.seats w ≡ Some seat → (p : PosId) (looked : List (Option ℕ)) (i : ℕ) → seat.mode ≡ Open p looked →
        AreCounted s graph (seated c w (after_look p looked i (word_at c (input_at (inputs_of s p.0) i).0) seat)) }
{}

/// What a cut leaves owed is paid for by the facts that fell, whatever it cuts the word to.
pub fn a_cut_keeps_the_counts()
    ensures { (s : System) (graph : List Row) → IsGraphOf s graph → (workers : ℕ) (c : CoreState) → IsCore s graph workers c → AreCounted s graph c →
        (w : ℕ) (seat : CoreSeat) → slice_get c.seats w ≡ Some seat → (p : PosId) (looked : List (Option ℕ)) (new : ℕ) → seat.mode ≡ Open p looked →
        AreCounted s graph (written c p.0 (cut_to new (word_at c p.0)) w (after_cut graph p new (word_at c p.0) seat)) }
{}

/// A tell that sets a bit leaves one position fewer owed.
pub fn a_tell_keeps_the_counts()
    ensures { (s : System) (graph : List Row) → IsGraphOf s graph → (workers : ℕ) (c : CoreState) → IsCore s graph workers c → AreCounted s graph c →
        (w : ℕ) (seat : CoreSeat) → slice_get c.seats w ≡ Some seat → (d : PosId) (list : List PosId) → d.0 < length s.masks → seat.mode ≡ Owes list →
        Contains list d →
        AreCounted s graph (written c d.0 (dirtied (word_at c d.0) w) w (after_tell w d list (word_at c d.0) seat)) }
{}

pub fn a_clear_keeps_the_counts()
    ensures { (s : System) (graph : List Row) → IsGraphOf s graph → (workers : ℕ) (c : CoreState) → IsCore s graph workers c → AreCounted s graph c →
        (w : ℕ) (seat : CoreSeat) → slice_get c.seats w ≡ Some seat → (p : PosId) → AreCounted s graph (seated c w (after_clear p seat)) }
{}

/// Joining an idle seat into another keeps them.
pub fn a_join_keeps_the_counts()
    ensures { (s : System) (graph : List Row) (c : CoreState) (u : ℕ) (first : CoreSeat) (w : ℕ) (other : CoreSeat) → u ≢ w →
        slice_get c.seats u ≡ Some first → slice_get c.seats w ≡ Some other → other.mode ≡ Idle → AreCounted s graph c →
        AreCounted s graph (joined c u first w other) }
{}

/// Every event keeps the two counts in a state that meets the core invariant.
pub fn every_event_keeps_the_counts()
    ensures { (s : System) (graph : List Row) → IsSystem s → IsGraphOf s graph → (workers : ℕ) → workers ≤ 16 → (c : CoreState) → IsCore s graph workers c →
        AreCounted s graph c →
        (e : CoreEvent) → IsEvent (length s.masks) workers e → AreCounted s graph (step s graph c e) }
{}

/// Where the two counts hold, the seats together took up no more words than the budget says, and so did each.
pub fn counted_seats_are_within_the_budget()
    ensures all { (s : System) (graph : List Row) (c : CoreState) → AreCounted s graph c → sum_by (λ seat. seat.took) c.seats ≤ budget_of s graph }
    ensures each { (s : System) (graph : List Row) (c : CoreState) → AreCounted s graph c → EachSeat (λ w seat. seat.took ≤ budget_of s graph) c.seats }
{}

/// So it is in every state that is reached from the opening, in which the counts hold.
pub fn no_run_takes_more_than_the_budget()
    ensures counted { (s : System) (graph : List Row) → IsSystem s → IsGraphOf s graph → (workers : ℕ) → 0 < workers → workers ≤ 16 →
        (events : List CoreEvent) →
        All (IsEvent (length s.masks) workers) events → AreCounted s graph (run_of s graph (opening s workers) events) }
    ensures all { (s : System) (graph : List Row) → IsSystem s → IsGraphOf s graph → (workers : ℕ) → 0 < workers → workers ≤ 16 → (events : List CoreEvent) →
        All (IsEvent (length s.masks) workers) events → sum_by (λ seat. seat.took) (run_of s graph (opening s workers) events).seats ≤ budget_of s graph }
    ensures each { (s : System) (graph : List Row) → IsSystem s → IsGraphOf s graph → (workers : ℕ) → 0 < workers → workers ≤ 16 → (events : List CoreEvent) →
        All (IsEvent (length s.masks) workers) events → EachSeat (λ w seat. seat.took ≤ budget_of s graph) (run_of s graph (opening s workers) events).seats }
{}
