//! Runs of several workers, which no clause tells from one worker after another.
ghost use Rattle.std.specs.Prelude.{◌≤◌};

use crate::fields::Fields;
use attr_ids::Text;
use attr_io::Gate;
use attrib::{Annotated, Emit, annotate};
use std::alloc::{AllocError, Global};
use std::io;
use std::sync::atomic::{AtomicBool, AtomicU64, Ordering};
use std::thread::Threads;

/// Functions of which each calls the next one, and the last one this one, with a word at headers and calls.
fn calls(alloc: Global, functions: usize, last: usize, word: &str) -> Result<String, AllocError> {
    let mut text = String::new(alloc);
    for i in 0..functions {
        let next = if i + 1 == functions { last } else { i + 1 };
        let function = format!(in alloc;
            "define void @f{i}(){word} {{ call void @f{next}(){word} ret void }}"
        )?;
        text.push_str(&function)?;
    }
    Ok(text)
}

/// Functions of which the last one calls the first. Each fact stays.
fn ring(alloc: Global, functions: usize, word: &str) -> Result<Text, AllocError> {
    Ok(Text::from_vec(calls(alloc, functions, 0, word)?.into_bytes()))
}

/// Functions of which the last one calls something unknown. No fact stays: each that falls is told to the
/// function before it.
fn chain(alloc: Global, functions: usize) -> Result<Text, AllocError> {
    let mut text = calls(alloc, functions, functions, "")?;
    text.push_str(format!(in alloc; "declare void @f{functions}()")?.as_str())?;
    Ok(Text::from_vec(text.into_bytes()))
}

/// Holds each of two workers at its first turn until the other one has come to its first turn.
#[derive(Drop)]
struct Meeting {
    first: AtomicBool,
    second: AtomicBool,
    ran_out: AtomicBool,
}

impl Gate for Meeting {
    fn at_turn(&self, worker: u8, turn: u64) {
        if turn != 1 {
            return;
        }
        let (mine, other) = if worker == 0 {
            (&self.first, &self.second)
        } else {
            (&self.second, &self.first)
        };
        mine.store(true, Ordering::SeqCst);
        for _ in 0..2_000_000_000u32 {
            if other.load(Ordering::SeqCst) {
                return;
            }
        }
        self.ran_out.store(true, Ordering::SeqCst);
    }
}

/// Counts the turns of all workers.
#[derive(Drop)]
pub struct TurnCount {
    pub count: AtomicU64,
}

impl Gate for TurnCount {
    fn at_turn(&self, _worker: u8, _turn: u64) {
        self.count.fetch_add(1, Ordering::SeqCst);
    }
}

/// Holds one worker at one of its turns until another one has come to a turn, or for a while.
#[derive(Drop)]
struct Hold {
    worker: u8,
    turn: u64,
    until: u64,
    came: AtomicBool,
}

impl Gate for Hold {
    fn at_turn(&self, worker: u8, turn: u64) {
        if worker != self.worker {
            if turn >= self.until {
                self.came.store(true, Ordering::SeqCst);
            }
            return;
        }
        if turn != self.turn {
            return;
        }
        for _ in 0..1_000_000u32 {
            if self.came.load(Ordering::SeqCst) {
                return;
            }
        }
    }
}

/// The annotated text; where there is none, an empty one.
fn annotated<R: Threads + Sync, G: Gate + Sync>(
    rt: &R,
    alloc: Global,
    text: &Text,
    workers: usize,
    gate: &G,
) -> Text {
    let workers = workers.max(1).min(16) as u8;
    match annotate(rt, alloc, text.as_slice(), workers, Emit::Module, gate) {
        Ok(Annotated { bytes }) => bytes,
        Err(_) => Text::new(alloc),
    }
}

/// `meet|FUNCTIONS`: whether two workers are at their first turns at the same time.
pub fn meet<R: Print + Threads + Sync>(rt: &R, alloc: Global, mut row: Fields) -> io::Result<()> {
    let text = ring(alloc, row.number(), "")?;
    let gate = Meeting {
        first: AtomicBool::new(false),
        second: AtomicBool::new(false),
        ran_out: AtomicBool::new(false),
    };
    let found = annotated(rt, alloc, &text, 2, &gate);
    let both = gate.first.load(Ordering::SeqCst) && gate.second.load(Ordering::SeqCst);
    let ran_out = gate.ran_out.load(Ordering::SeqCst);
    println!(rt; "{} both {both} ran out {ran_out}", !found.is_empty())
}

/// `turns|FUNCTIONS|WORKERS`: whether there are as many turns as functions.
pub fn turns<R: Print + Threads + Sync>(rt: &R, alloc: Global, mut row: Fields) -> io::Result<()> {
    let functions = row.number();
    let text = ring(alloc, functions, "")?;
    let gate = TurnCount {
        count: AtomicU64::new(0),
    };
    let found = annotated(rt, alloc, &text, row.number(), &gate);
    let enough = gate.count.load(Ordering::SeqCst) >= functions as u64;
    println!(rt; "{} enough {enough}", !found.is_empty())
}

/// In how many of nine runs the wanted text comes, with one worker held at one of its first turns.
fn runs_alike<R: Threads + Sync>(
    rt: &R,
    alloc: Global,
    text: &Text,
    wanted: &Text,
    workers: usize,
    worker: u8,
) -> u64 {
    let mut alike = 0u64;
    for case in 0..9u64 {
        let gate = Hold {
            worker,
            turn: case / 3 + 1,
            until: case % 3 + 1,
            came: AtomicBool::new(false),
        };
        let found = annotated(rt, alloc, text, workers, &gate);
        if found.as_slice() == wanted.as_slice() {
            alike = alike.saturating_add(1);
        }
    }
    alike
}

/// `held ring|FUNCTIONS|WORKERS|WORKER`: a ring, where every fact stays.
pub fn held_ring<R: Print + Threads + Sync>(
    rt: &R,
    alloc: Global,
    mut row: Fields,
) -> io::Result<()> {
    let functions = row.number();
    let text = ring(alloc, functions, "")?;
    let wanted = ring(alloc, functions, " nofree noreturn nounwind")?;
    let workers = row.number();
    let worker = row.number().min(15) as u8;
    let alike = runs_alike(rt, alloc, &text, &wanted, workers, worker);
    println!(rt; "{alike} of 9")
}

/// `held chain|FUNCTIONS|WORKERS|WORKER`: a chain, where every fact falls, so that the text stays as it is.
pub fn held_chain<R: Print + Threads + Sync>(
    rt: &R,
    alloc: Global,
    mut row: Fields,
) -> io::Result<()> {
    let text = chain(alloc, row.number())?;
    let workers = row.number();
    let worker = row.number().min(15) as u8;
    let alike = runs_alike(rt, alloc, &text, &text, workers, worker);
    println!(rt; "{alike} of 9")
}
