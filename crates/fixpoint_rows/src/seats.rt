//! Words that two seats cut.
ghost use Rattle.std.specs.Prelude.{◌≡◌, ◌<◌, true, List, length, All, IfSome, IfOk, IsTrue};
ghost use Rattle.attr_ids.specs.declared.ids.PosId.{PosId as Position};
ghost use Rattle.dep_graph.specs.Graph.{IsGraphOf};
ghost use Rattle.fix_core.specs.declared.state.CoreMode.TheVariants.{Idle};
ghost use Rattle.fix_core.specs.Machine.{has_all, owing, new_seat};
ghost use Rattle.word_rule.specs.Views.{looked_in};
ghost use Rattle.word_rule.specs.Belongs.{core_of, number_of, system_in, workers_in, IsSeatOf, IsOpen, AreSeatsOf};

use crate::line::Line;
use crate::numbers::{is_send, shared};
use attr_ids::{PosId, Sequence};
use dep_graph::DepGraph;
use rule_terms::System;
use std::alloc::Global;
use word_rule::{LatticeWords, WorkerSeat, WorkerSeats};

/// Takes up a position that has no inputs.
#[tactic(auto, using(crate::proofs::Trying::none_left))]
fn take_alone(words: &LatticeWords, seat: &mut WorkerSeat, p: PosId) -> Option<u64>
    requires of { IsSeatOf words.now seat.old }
    requires idle { (core_of seat.old).mode ≡ Idle }
    requires position { p.0 < length (system_in words.now).masks }
    ensures of { IfSome result (λ _. IsSeatOf words.now seat.new) }
    ensures number { IfSome result (λ _. number_of seat.new ≡ number_of seat.old) }
    ensures open { IfSome result (λ _. IsOpen (core_of seat.new).mode) }
    ensures all { IfSome result (λ _. has_all (looked_in (core_of seat.new).mode) ≡ true) }
{
    let facts = words.take(seat, p)?;
    if !words.system().inputs(p).is_empty() {
        return None;
    }
    Some(facts)
}

/// Cuts the open position to what its term leaves.
fn cut(words: &LatticeWords, seat: &mut WorkerSeat) -> u64
    requires of { IsSeatOf words.now seat.old }
    requires open { IsOpen (core_of seat.old).mode }
    requires all { has_all (looked_in (core_of seat.old).mode) ≡ true }
    ensures of { IsSeatOf words.now seat.new }
    ensures number { number_of seat.new ≡ number_of seat.old }
    ensures owing { (list : List Position) × ((core_of seat.new).mode ≡ owing list) }
{
    let new = words.value(seat);
    words.cut(seat, new)
}

/// Takes up a position that has one input, and looks at that.
#[tactic(auto, using(crate::proofs::Trying::one_left, crate::proofs::Trying::took_open))]
fn take_reader(words: &LatticeWords, seat: &mut WorkerSeat, p: PosId) -> Option<(u64, u64)>
    requires of { IsSeatOf words.now seat.old }
    requires idle { (core_of seat.old).mode ≡ Idle }
    requires position { p.0 < length (system_in words.now).masks }
    ensures of { IfSome result (λ _. IsSeatOf words.now seat.new) }
    ensures number { IfSome result (λ _. number_of seat.new ≡ number_of seat.old) }
    ensures open { IfSome result (λ _. IsOpen (core_of seat.new).mode) }
    ensures all { IfSome result (λ _. has_all (looked_in (core_of seat.new).mode) ≡ true) }
{
    let facts = words.take(seat, p)?;
    if words.system().inputs(p).len() != 1 {
        return None;
    }
    let looked = words.look(seat, 0);
    Some((facts, looked))
}

/// Whether the seat sees its own dirty bit unset.
#[tactic(auto, using(crate::proofs::Trying::still_idle))]
fn sees(words: &LatticeWords, seat: &mut WorkerSeat, p: PosId) -> u64
    requires of { IsSeatOf words.now seat.old }
    requires idle { (core_of seat.old).mode ≡ Idle }
    requires position { p.0 < length (system_in words.now).masks }
    ensures of { IsSeatOf words.now seat.new }
    ensures number { number_of seat.new ≡ number_of seat.old }
    ensures idle { (core_of seat.new).mode ≡ Idle }
{
    u64::from(words.clear(seat, p))
}

/// Tells the first position that the seat owes, and answers it and whether its bit was unset.
#[tactic(auto, using(crate::proofs::Trying::first_owed))]
fn tell_first(words: &LatticeWords, seat: &mut WorkerSeat) -> Option<(u64, u64)>
    requires of { IsSeatOf words.now seat.old }
    ensures of { IfSome result (λ _. IsSeatOf words.now seat.new) }
    ensures number { IfSome result (λ _. number_of seat.new ≡ number_of seat.old) }
    ensures owing { IfSome result (λ _. (list : List Position) × ((core_of seat.new).mode ≡ owing list)) }
{
    let d = words.owed(seat)?;
    let unset = words.tell(seat, d);
    Some((u64::from(d.0), u64::from(unset)))
}

/// Whether the seat owes nothing more.
#[tactic(auto, using(crate::proofs::Trying::rests))]
fn rests(words: &LatticeWords, seat: &WorkerSeat) -> bool
    requires owing { (list : List Position) × ((core_of seat.now).mode ≡ owing list) }
    ensures idle { IsTrue result → (core_of seat.now).mode ≡ Idle }
{
    words.owed(seat).is_none()
}

/// The seats of two workers.
fn pair(words: &LatticeWords, seats: WorkerSeats) -> (WorkerSeat, WorkerSeat)
    requires seats { AreSeatsOf words.now seats × (workers_in words.now ≡ 2) }
    requires fresh { All (λ seat. core_of seat ≡ new_seat) seats }
    ensures first { IsSeatOf words.now result.0 × (number_of result.0 ≡ 0) × ((core_of result.0).mode ≡ Idle) }
    ensures second { IsSeatOf words.now result.1 × (number_of result.1 ≡ 1) × ((core_of result.1).mode ≡ Idle) }
{
    let mut seats = seats.into_vec();
    let first = seats.remove(0);
    let second = seats.remove(0);
    drop(seats);
    (first, second)
}

/// Answers the words that two seats leave.
fn put_end(
    alloc: Global,
    line: &mut Line,
    words: LatticeWords,
    first: WorkerSeat,
    second: WorkerSeat,
)
    requires first { IsSeatOf words first × (number_of first ≡ 0) × ((core_of first).mode ≡ Idle) }
    requires second { IsSeatOf words second × (number_of second ≡ 1) × ((core_of second).mode ≡ Idle) }
    requires two { workers_in words ≡ 2 }
{
    match vec![in alloc; first, second] {
        Ok(seats) => line.put_all(words.close(Sequence::from_vec(seats)).as_slice()),
        Err(_) => line.lose(),
    }
}

/// The second seat takes position 1 up, which has no inputs, cuts it and tells its reader; answers whether it did and
/// owes nothing more.
fn cut_second(words: &LatticeWords, seat: &mut WorkerSeat, line: &mut Line) -> bool
    requires of { IsSeatOf words.now seat.old }
    requires idle { (core_of seat.old).mode ≡ Idle }
    requires position { 1 < length (system_in words.now).masks }
    ensures of { IsTrue result → IsSeatOf words.now seat.new }
    ensures number { IsTrue result → number_of seat.new ≡ number_of seat.old }
    ensures idle { IsTrue result → (core_of seat.new).mode ≡ Idle }
{
    let Some(facts) = take_alone(words, seat, PosId(1)) else {
        return false;
    };
    let lost = cut(words, seat);
    let Some((told, unset)) = tell_first(words, seat) else {
        return false;
    };
    line.put_all(&[facts, lost, told, unset]);
    rests(words, seat)
}

/// The first seat takes position 0 up, which has one input, and cuts it; answers whether it did and owes nothing.
fn cut_first(words: &LatticeWords, seat: &mut WorkerSeat, line: &mut Line) -> bool
    requires of { IsSeatOf words.now seat.old }
    requires idle { (core_of seat.old).mode ≡ Idle }
    requires position { 0 < length (system_in words.now).masks }
    ensures of { IsTrue result → IsSeatOf words.now seat.new }
    ensures number { IsTrue result → number_of seat.new ≡ number_of seat.old }
    ensures idle { IsTrue result → (core_of seat.new).mode ≡ Idle }
{
    let Some((facts, looked)) = take_reader(words, seat, PosId(0)) else {
        return false;
    };
    let lost = cut(words, seat);
    line.put_all(&[facts, looked, lost]);
    rests(words, seat)
}

/// Answers what two seats see of their own bits, take up, look at, cut and tell, in a system of two positions, of which
/// the first one reads the second; answers whether all went so.
fn put_steps(
    line: &mut Line,
    words: &LatticeWords,
    first: &mut WorkerSeat,
    second: &mut WorkerSeat,
) -> bool
    requires first { IsSeatOf words.now first.old × ((core_of first.old).mode ≡ Idle) }
    requires second { IsSeatOf words.now second.old × ((core_of second.old).mode ≡ Idle) }
    requires two { length (system_in words.now).masks ≡ 2 }
    ensures first { IsTrue result → IsSeatOf words.now first.new × (number_of first.new ≡ number_of first.old) × ((core_of first.new).mode ≡ Idle) }
    ensures second { IsTrue result → IsSeatOf words.now second.new × (number_of second.new ≡ number_of second.old) × ((core_of second.new).mode ≡ Idle) }
{
    line.push(sees(words, first, PosId(1)));
    line.push(sees(words, second, PosId(1)));
    if !cut_second(words, second, line) {
        return false;
    }
    line.push(sees(words, first, PosId(0)));
    line.push(sees(words, second, PosId(0)));
    if !cut_first(words, first, line) || words.take(first, PosId(1)).is_some() {
        return false;
    }
    line.push(sees(words, second, PosId(0)));
    true
}

/// Runs two seats over a system of two positions, of which the first one reads the second. Answers their steps, and the
/// words that they leave.
pub(crate) fn run_two(alloc: Global, line: &mut Line, s: &System, graph: &DepGraph)
    requires { IsGraphOf s.now graph.now }
{
    if s.count() != 2 {
        return line.put(" not two positions");
    }
    let Ok((words, seats)) = LatticeWords::open(alloc, s, graph, 2) else {
        return line.lose();
    };
    let (mut first, mut second) = pair(&words, seats);
    shared(&words);
    is_send(&first);
    if !put_steps(line, &words, &mut first, &mut second) {
        return line.put(" other steps");
    }
    put_end(alloc, line, words, first, second)
}

/// Opens the words for so many seats, and answers how many there are, and what they leave at once.
pub(crate) fn open_and_close(
    alloc: Global,
    line: &mut Line,
    s: &System,
    graph: &DepGraph,
    seats: u32,
)
    requires { IsGraphOf s.now graph.now }
{
    if seats == 0 || seats > 16 {
        return line.put(" not 1 to 16 seats");
    }
    let Ok((words, seats)) = LatticeWords::open(alloc, s, graph, seats as u8) else {
        return line.lose();
    };
    line.push(seats.len() as u64);
    line.put_all(words.close(seats).as_slice())
}
