//! Certificates, and what is found of them.
ghost use Rattle.std.specs.Prelude.{◌<◌, ◌^◌, length};

use crate::damage::{doubled, dropped, exchanged};
use crate::line::Line;
use crate::numbers::{at, place};
use attr_ids::NoMemory;
use rule_terms::System;
use std::alloc::Global;
use why_check::{Entry, EntryList, Verdict, check};
use why_make::{WhyRefusal, explain};

/// How many entries a list has here, at most.
const MANY: usize = 100_000;

/// Answers each entry, as its position and its bits.
fn put_entries(line: &mut Line, entries: &EntryList) {
    for entry in entries.as_slice() {
        line.number(u64::from(entry.p.0));
        line.number(entry.bits);
    }
}

/// Answers how many entries there are, and the numbers of the first and the last of their positions.
fn put_size(line: &mut Line, entries: &EntryList) {
    line.number(entries.len() as u64);
    if let (Some(first), Some(last)) = (entries.as_slice().first(), entries.as_slice().last()) {
        line.number(u64::from(first.p.0));
        line.number(u64::from(last.p.0));
    }
}

/// Answers a verdict; a Yes with the words that are left.
fn put_verdict(line: &mut Line, verdict: &Verdict) {
    match verdict {
        Verdict::Yes { words } => {
            line.put(" yes");
            for word in words.as_slice() {
                line.number(*word);
            }
        }
        Verdict::No { at } => {
            line.put(" no");
            line.number(u64::from(*at));
        }
        Verdict::Short { p } => {
            line.put(" short");
            line.number(u64::from(p.0));
        }
    }
}

/// Answers the verdict on a list.
fn judge(alloc: Global, s: &System, entries: &EntryList, line: &mut Line) {
    if entries.len() >= MANY {
        return;
    }
    match check(alloc, s, entries) {
        Ok(verdict) => put_verdict(line, &verdict),
        Err(NoMemory) => line.lose(),
    }
}

/// Answers the verdict on a list, if there is one.
fn judge_made(alloc: Global, s: &System, made: Result<EntryList, NoMemory>, line: &mut Line) {
    match made {
        Ok(entries) => judge(alloc, s, &entries, line),
        Err(NoMemory) => line.lose(),
    }
}

/// The entries that these numbers give, a position and bits each.
fn listed(alloc: Global, n: &[u64]) -> Result<EntryList, NoMemory> {
    let mut out = EntryList::new(alloc);
    for i in 0..n.len() / 2 {
        out.push(Entry {
            p: place(n, 2 * i),
            bits: at(n, 2 * i + 1),
        })?;
    }
    Ok(out)
}

/// Answers a call with the certificate of the system, if it is one.
fn put_answer(
    alloc: Global,
    s: &System,
    entries: &EntryList,
    call: &str,
    place: usize,
    line: &mut Line,
) -> bool {
    let all = entries.as_slice();
    match call {
        "explain" => put_entries(line, entries),
        "size" => put_size(line, entries),
        "whole" => judge(alloc, s, entries, line),
        "dropped" => judge_made(alloc, s, dropped(alloc, all, place), line),
        "doubled" => judge_made(alloc, s, doubled(alloc, all, place), line),
        "exchanged" => judge_made(alloc, s, exchanged(alloc, all, place), line),
        _ => return false,
    }
    true
}

/// Answers a call of certificates, if it is one.
pub(crate) fn answer(alloc: Global, s: &System, call: &str, n: &[u64], line: &mut Line) -> bool {
    if call == "check" {
        judge_made(alloc, s, listed(alloc, n), line);
        return true;
    }
    match explain(alloc, s) {
        Ok(entries) => put_answer(alloc, s, &entries, call, at(n, 0) as usize, line),
        Err(WhyRefusal::TooMany { count }) => {
            line.put(" too many entries:");
            line.number(count);
            true
        }
        Err(WhyRefusal::NoMemory) => {
            line.lose();
            true
        }
    }
}
