use crate::meetings::TurnCount;
use attr_ids::{EndList, NoMemory, PosId, WordList};
use closing_pass::close;
use dep_graph::dependents;
use rule_terms::{NewTerm, System};
use std::alloc::Global;
use std::io;
use std::sync::atomic::{AtomicU64, Ordering};
use std::thread::Threads;
use workers::run_all;

/// Two words, of which the first reads the second, and the rule of the second leaves nothing.
fn falling(alloc: Global) -> Result<System, NoMemory> {
    let mut system = System::new(alloc, WordList::from_slice(alloc, &[0b1, 0b1])?)?;
    system.meet(alloc, PosId(0), NewTerm::Word(PosId(1)))?;
    system.meet(alloc, PosId(1), NewTerm::Const(0))?;
    Ok(system)
}

/// What one worker with one turn leaves: how it ended, whether a word is left, and what is left when
/// its words are closed.
fn left<R: Threads + Sync>(
    rt: &R,
    alloc: Global,
    gate: &TurnCount,
) -> Result<(EndList, bool, WordList), NoMemory> {
    let system = falling(alloc)?;
    let Ok(graph) = dependents(alloc, &system) else {
        return Err(NoMemory);
    };
    let ran = run_all(rt, alloc, &system, &graph, 1, 1, gate)?;
    let is_left = ran.words.as_slice() != [0, 0].as_slice();
    let closed = close(&system, ran.words, &ran.ends);
    Ok((ran.ends, is_left, closed))
}

/// `spent`: one worker has two words to take up and one turn, and what it leaves is closed to the
/// greatest words.
pub fn spent<R: Print + Threads + Sync>(rt: &R, alloc: Global) -> io::Result<()> {
    let gate = TurnCount {
        count: AtomicU64::new(0),
    };
    let Ok((ends, is_left, closed)) = left(rt, alloc, &gate) else {
        return println!(rt; "no memory");
    };
    let turns = gate.count.load(Ordering::SeqCst);
    println!(rt;
        "turns {turns} {:?} left {is_left} closed {:?}",
        ends.as_slice(),
        closed.as_slice()
    )
}
