//! The core machine, run by two seats from the opening.
ghost use Rattle.std.specs.Prelude.{◌≡◌, [], ◌∷◌, IsTrue, IfOk, All, length};
ghost use Rattle.fix_core.specs.Machine.{new_seat, IsEvent};
ghost use Rattle.fix_core.specs.Runs.{CanRun};
ghost use Rattle.dep_graph.specs.Graph.{IsGraphOf};

use crate::line::Line;
use attr_ids::{NoMemory, PosId, PosList, WordList};
use dep_graph::DepGraph;
use fix_core::{CoreEvent, CoreMode, CoreSeat, CoreSeats, CoreState, EventList, run};
use lattice_words::word::DIRTY;
use rule_terms::System;
use std::alloc::Global;

const FIRST: u64 = 1 << DIRTY;

const SECOND: u64 = 1 << (DIRTY + 1);

fn new_seat(alloc: Global) -> CoreSeat
    ensures { result ≡ new_seat }
{
    CoreSeat {
        mode: CoreMode::Idle,
        known: PosList::new(alloc),
        took: 0,
        told: 0,
    }
}

/// The words at the opening for two seats.
fn opening_words(alloc: Global, s: &System) -> Result<WordList, NoMemory>
    ensures { IfOk result (λ words. length words ≡ length s.now.masks) }
{
    let mut words = WordList::new(alloc);
    for p in 0..s.count() {
        let dirty = if p % 2 == 0 { FIRST } else { SECOND };
        words.push(s.mask(PosId(p)) | dirty)?;
    }
    Ok(words)
}

fn two_seats(alloc: Global) -> Result<CoreSeats, NoMemory>
    ensures { IfOk result (λ seats. seats ≡ new_seat ∷ new_seat ∷ []) }
{
    let mut seats = CoreSeats::new(alloc);
    seats.push(new_seat(alloc))?;
    seats.push(new_seat(alloc))?;
    Ok(seats)
}

#[tactic(auto, using(fix_core::proofs::Doing::opening_runs))]
fn opening(alloc: Global, s: &System) -> Result<CoreState, NoMemory>
    ensures can { IfOk result (λ c. CanRun s.now c 100) }
    ensures seats { IfOk result (λ c. length c.seats ≡ 2) }
{
    let words = opening_words(alloc, s)?;
    let seats = two_seats(alloc)?;
    Ok(CoreState { words, seats })
}

/// The event that a number's last three digits are: what is done, by which seat, with which position.
fn event(number: u64) -> CoreEvent {
    let w = (number >> 4 & 15) as u8;
    let p = PosId((number & 15) as u32);
    match number >> 8 & 15 {
        1 => CoreEvent::Take { w, p },
        2 => CoreEvent::Look { w, i: p.0 },
        3 => CoreEvent::Cut { w },
        4 => CoreEvent::Tell { w, d: p },
        _ => CoreEvent::Clear { w, p },
    }
}

fn events(alloc: Global, n: &[u64]) -> Result<EventList, NoMemory> {
    let mut events = EventList::new(alloc);
    for number in n {
        events.push(event(*number))?;
    }
    Ok(events)
}

fn is_event(event: CoreEvent, count: u32) -> bool
    ensures { IsTrue result → IsEvent count 2 event }
{
    match event {
        CoreEvent::Take { w, p } => w < 2 && p.0 < count,
        CoreEvent::Look { w, .. } => w < 2,
        CoreEvent::Cut { w } => w < 2,
        CoreEvent::Tell { w, d } => w < 2 && d.0 < count,
        CoreEvent::Clear { w, p } => w < 2 && p.0 < count,
    }
}

fn are_events(events: &[CoreEvent], count: u32) -> bool
    ensures { IsTrue result → All (IsEvent count 2) events.now }
{
    for event in events {
        if !is_event(*event, count) {
            return false;
        }
    }
    true
}

/// Answers a seat: whether it is idle, has a position open or owes some, how many words it took up and told, how many
/// positions it knows, which, and which it owes.
fn put_seat(line: &mut Line, seat: &CoreSeat) {
    let mode = match &seat.mode {
        CoreMode::Idle => 0,
        CoreMode::Open { .. } => 1,
        CoreMode::Owes { .. } => 2,
    };
    line.put_all(&[mode, seat.took, seat.told, seat.known.len() as u64]);
    line.put_places(seat.known.as_slice());
    if let CoreMode::Owes { list } = &seat.mode {
        line.put_places(list.as_slice());
    }
}

/// Answers the words of a state, and its seats.
fn put_state(line: &mut Line, state: &CoreState) {
    line.put_all(state.words.as_slice());
    for seat in state.seats.as_slice() {
        put_seat(line, seat);
    }
}

/// Answers the state that two seats reach from this one by these events.
#[tactic(auto, using(fix_core::proofs::Doing::runs_less))]
fn put_end(
    alloc: Global,
    line: &mut Line,
    s: &System,
    graph: &DepGraph,
    start: &CoreState,
    events: &EventList,
)
    requires graph { IsGraphOf s.now graph.now }
    requires can { CanRun s.now start.now 100 }
    requires seats { length start.now.seats ≡ 2 }
{
    if events.len() > 100 || !are_events(events.as_slice(), s.count()) {
        return line.put(" no events of two seats");
    }
    match run(alloc, s, graph, start, events) {
        Ok(state) => put_state(line, &state),
        Err(NoMemory) => line.lose(),
    }
}

/// Answers the state that two seats reach from the opening by the events that these numbers are.
pub(crate) fn put_reached(alloc: Global, line: &mut Line, s: &System, graph: &DepGraph, n: &[u64])
    requires { IsGraphOf s.now graph.now }
{
    let Ok(events) = events(alloc, n) else {
        return line.lose();
    };
    let Ok(start) = opening(alloc, s) else {
        return line.lose();
    };
    put_end(alloc, line, s, graph, &start, &events)
}
