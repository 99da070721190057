ghost use Rattle.std.specs.Prelude.{◌≡◌, ℕ, ◌+◌, ◌^◌, ◌<◌, ◌≤◌, length, All, IfOk, OnOk, take};
ghost use Rattle.dep_graph.specs.Graph.{IsGraphOf};
ghost use Rattle.fix_core.specs.Machine.{word_at, seat_at, written, seated, take_step, look_step, cut_step, tell_step, clear_step, step, run_of, IsEvent};
ghost use Rattle.fix_core.specs.Runs.{CanRun};

use crate::event::{CoreEvent, EventList};
use crate::lists::{copy_of, names, owed, values, with_position};
use crate::seat::mode_owing;
use crate::state::{CoreMode, CoreSeat, CoreSeats, CoreState};
use attr_ids::{NoMemory, PosId};
use dep_graph::DepGraph;
use lattice_words::word::{CLEAN, DIRTY, FACTS};
use rule_terms::System;
use std::alloc::Global;

impl CoreMode {
    fn copied(&self, alloc: Global) -> Result<CoreMode, NoMemory>
        ensures { IfOk result (λ copy. copy ≡ self.now) }
    {
        match self {
            CoreMode::Idle => Ok(CoreMode::Idle),
            CoreMode::Open { p, looked } => {
                let looked = copy_of(alloc, looked)?;
                Ok(CoreMode::Open { p: *p, looked })
            }
            CoreMode::Owes { list } => {
                let list = copy_of(alloc, list)?;
                Ok(CoreMode::Owes { list })
            }
        }
    }
}

impl CoreState {
    fn copied(&self, alloc: Global) -> Result<CoreState, NoMemory>
        ensures { IfOk result (λ copy. copy ≡ self.now) }
    {
        let words = copy_of(alloc, &self.words)?;
        let mut seats = CoreSeats::new(alloc);
        for seat in self.seats.as_slice() {
            let mode = seat.mode.copied(alloc)?;
            seats.push(seat.in_mode(alloc, mode)?)?;
        }
        Ok(CoreState { words, seats })
    }

    fn word(&self, p: PosId) -> u64
        requires { p.0 < length self.now.words }
        ensures { result ≡ word_at self.now p.0 }
    {
        self.words.as_slice()[p.0 as usize]
    }

    fn seat(&self, w: u8) -> &CoreSeat
        requires { w < length self.now.seats }
        ensures { result.now ≡ seat_at self.now w }
    {
        &self.seats.as_slice()[w as usize]
    }

    fn write(&mut self, p: PosId, word: u64, w: u8, seat: CoreSeat)
        requires position { p.0 < length self.old.words }
        requires seat { w < length self.old.seats }
        ensures { self.new ≡ written self.old p.0 word w seat }
    {
        self.words.set(p.0 as usize, word);
        self.seats.set(w as usize, seat);
    }

    fn set_seat(&mut self, w: u8, seat: CoreSeat)
        requires { w < length self.old.seats }
        ensures { self.new ≡ seated self.old w seat }
    {
        self.seats.set(w as usize, seat);
    }
}

fn take_up(alloc: Global, s: &System, c: &mut CoreState, w: u8, p: PosId) -> Result<(), NoMemory>
    requires run { CanRun s.now c.old 1 }
    requires seat { w < length c.old.seats }
    requires position { p.0 < length s.now.masks }
    ensures { OnOk result (c.new ≡ take_step s.now c.old w p (seat_at c.old w).mode) }
{
    let word = c.word(p);
    let old = c.seat(w);
    let CoreMode::Idle = old.mode else {
        return Ok(());
    };
    let seat = old.taking(alloc, s, p, word)?;
    c.write(p, word & CLEAN, w, seat);
    Ok(())
}

fn look(alloc: Global, s: &System, c: &mut CoreState, w: u8, i: u32) -> Result<(), NoMemory>
    requires run { CanRun s.now c.old 1 }
    requires seat { w < length c.old.seats }
    ensures { OnOk result (c.new ≡ look_step s.now c.old w i (seat_at c.old w).mode) }
{
    let old = c.seat(w);
    let CoreMode::Open { p, looked } = &old.mode else {
        return Ok(());
    };
    let inputs = s.inputs(*p);
    if i as usize >= inputs.len() {
        return Ok(());
    }
    let input = inputs[i as usize];
    let inside = input.0 < s.count();
    prove!(inside);
    let word = c.word(input);
    let seat = old.looking(alloc, *p, looked, i, word)?;
    c.set_seat(w, seat);
    Ok(())
}

fn cut(alloc: Global, s: &System, g: &DepGraph, c: &mut CoreState, w: u8) -> Result<(), NoMemory>
    requires graph { IsGraphOf s.now g.now }
    requires run { CanRun s.now c.old 1 }
    requires seat { w < length c.old.seats }
    ensures { OnOk result (c.new ≡ cut_step s.now g.now c.old w (seat_at c.old w).mode) }
{
    let old = c.seat(w);
    let CoreMode::Open { p, looked } = &old.mode else {
        return Ok(());
    };
    let p = *p;
    let Some(values) = values(alloc, looked.as_slice())? else {
        return Ok(());
    };
    let word = c.word(p);
    let left = word & (s.eval(p, values.as_slice()) | !FACTS);
    let lost = (word & FACTS) ^ (left & FACTS);
    let mode = mode_owing(owed(alloc, g, p, lost)?);
    let seat = old.in_mode(alloc, mode)?;
    c.write(p, left, w, seat);
    Ok(())
}

fn tell(alloc: Global, c: &mut CoreState, w: u8, d: PosId) -> Result<(), NoMemory>
    requires seats { length c.old.seats ≤ 16 }
    requires seat { w < length c.old.seats }
    requires told { (seat_at c.old w).told + 1 < 2 ^ 64 }
    requires position { d.0 < length c.old.words }
    ensures { OnOk result (c.new ≡ tell_step c.old w d (seat_at c.old w).mode) }
{
    let word = c.word(d);
    let old = c.seat(w);
    let CoreMode::Owes { list } = &old.mode else {
        return Ok(());
    };
    if !names(list.as_slice(), d) {
        return Ok(());
    }
    let seat = old.telling(alloc, w, d, list, word)?;
    c.write(d, word | 1 << (DIRTY + w as u32), w, seat);
    Ok(())
}

fn clear(alloc: Global, c: &mut CoreState, w: u8, p: PosId) -> Result<(), NoMemory>
    requires seats { length c.old.seats ≤ 16 }
    requires seat { w < length c.old.seats }
    requires position { p.0 < length c.old.words }
    ensures { OnOk result (c.new ≡ clear_step c.old w p (seat_at c.old w).mode) }
{
    let unset = c.word(p) >> (DIRTY + w as u32) & 1 == 0;
    let old = c.seat(w);
    let CoreMode::Idle = old.mode else {
        return Ok(());
    };
    if unset {
        let known = with_position(alloc, &old.known, p)?;
        let seat = CoreSeat {
            mode: CoreMode::Idle,
            known,
            took: old.took,
            told: old.told,
        };
        c.set_seat(w, seat);
    }
    Ok(())
}

fn do_event(
    alloc: Global,
    s: &System,
    g: &DepGraph,
    c: &mut CoreState,
    event: CoreEvent,
) -> Result<(), NoMemory>
    requires graph { IsGraphOf s.now g.now }
    requires run { CanRun s.now c.old 1 }
    requires event { IsEvent (length s.now.masks) (length c.old.seats) event }
    ensures { OnOk result (c.new ≡ step s.now g.now c.old event) }
{
    match event {
        CoreEvent::Take { w, p } => take_up(alloc, s, c, w, p),
        CoreEvent::Look { w, i } => look(alloc, s, c, w, i),
        CoreEvent::Cut { w } => cut(alloc, s, g, c, w),
        CoreEvent::Tell { w, d } => tell(alloc, c, w, d),
        CoreEvent::Clear { w, p } => clear(alloc, c, w, p),
    }
}

/// The state after the events, one after another; an event that is not enabled changes nothing. The graph is
/// the one that `dependents` answers for the system.
pub fn run(
    alloc: Global,
    s: &System,
    g: &DepGraph,
    start: &CoreState,
    events: &EventList,
) -> Result<CoreState, NoMemory>
    requires graph { IsGraphOf s.now g.now }
    requires start { CanRun s.now start.now (length events.now) }
    requires events { All (IsEvent (length s.now.masks) (length start.now.seats)) events.now }
    ensures { IfOk result (λ state. state ≡ run_of s.now g.now start.now events.now) }
{
    let mut state = start.copied(alloc)?;
    for event in events.as_slice() {
        do_event(alloc, s, g, &mut state, *event)?;
    }
    Ok(state)
}
