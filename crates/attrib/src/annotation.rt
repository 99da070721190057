ghost use Rattle.std.specs.Prelude.{◌≡◌, ◌≤◌, ◌⊎◌, IsOk, IfOk, IfErr, slice_index};
ghost use Rattle.rule_terms.specs.Greatest as rule;
ghost use Rattle.dep_graph.specs.Graph.{IsGraphOf};
ghost use Rattle.accept.specs.Causes.{IsCause};
ghost use Rattle.accept.specs.Ready.{IsReady};
ghost use Rattle.rule_says.specs.Reading.{facts_in};
ghost use Rattle.manifest.specs.Additions.{insertions_of};
ghost use Rattle.weave.specs.Woven.{Woven};
ghost use Rattle.attrib.specs.Annotated.{IsAccepted, IsAnnotated, IsShown};

use crate::offsets::stand_within;
use accept::{Ready, Refusal, read};
use attr_ids::{Insertions, NoMemory, Text, WordList};
use attr_io::Gate;
use attr_list::{list, summary};
use closing_pass::close;
use command_line::Emit;
use dep_graph::{DepGraph, budget};
use manifest::insertions;
use rule_terms::System;
use std::alloc::Global;
use std::thread::Threads;
use weave::weave;
use workers::run_all;

/// What is printed for a text.
#[derive(Drop)]
pub struct Annotated {
    pub bytes: Text,
}

/// The greatest words of a system. Workers take away from the masks what the terms do not leave, and the
/// closing pass sweeps what they left, if they left anything.
fn greatest<R: Threads + Sync, G: Gate + Sync>(
    rt: &R,
    alloc: Global,
    system: &System,
    graph: &DepGraph,
    workers: u8,
    gate: &G,
) -> Result<WordList, NoMemory>
    requires some { 1 ≤ workers }
    requires most { workers ≤ 16 }
    requires graph { IsGraphOf system.now graph.now }
    ensures { IfOk result (rule.IsGreatest system.now) }
{
    let turns = budget(system, graph).saturating_add(1);
    let ran = run_all(rt, alloc, system, graph, workers, turns, gate)?;
    Ok(close(system, ran.words, &ran.ends))
}

/// The text with words put in. Where their places do not rise within the text, it answers that no memory is left.
fn woven(alloc: Global, text: &[u8], insertions: &Insertions) -> Result<Text, NoMemory>
    ensures { IfOk result (Woven text.now insertions.now) }
{
    if !stand_within(insertions.as_slice(), text.len()) {
        return Err(NoMemory);
    }
    weave(alloc, text, insertions)
}

/// What is printed of what is added for these words.
fn shown(
    alloc: Global,
    text: &[u8],
    ready: &Ready,
    words: &WordList,
    insertions: &Insertions,
    emit: Emit,
) -> Result<Text, NoMemory>
    requires ready { IsReady text.now ready.now }
    requires words { rule.IsGreatest ready.now.system words.now }
    requires insertions { insertions.now ≡ insertions_of ready.now.module (facts_in ready.now.positions (slice_index words.now)) }
    ensures { IfOk result (IsShown emit text.now ready.now.module (facts_in ready.now.positions (slice_index words.now))) }
{
    match emit {
        Emit::Module => woven(alloc, text, insertions),
        Emit::List => list(alloc, insertions),
        Emit::Summary => summary(alloc, &ready.module, &ready.positions, words, insertions),
    }
}

/// What is printed for these words.
fn print(
    alloc: Global,
    text: &[u8],
    ready: &Ready,
    words: &WordList,
    emit: Emit,
) -> Result<Text, NoMemory>
    requires ready { IsReady text.now ready.now }
    requires words { rule.IsGreatest ready.now.system words.now }
    ensures { IfOk result (IsAnnotated emit text.now) }
{
    let insertions = insertions(alloc, &ready.module, &ready.uses, &ready.positions, words)?;
    let bytes = shown(alloc, text, ready, words, &insertions, emit)?;
    Ok(bytes)
}

/// What is printed for the words of the greatest self-supporting set of facts of what was read of the text.
fn deduce<R: Threads + Sync, G: Gate + Sync>(
    rt: &R,
    alloc: Global,
    text: &[u8],
    ready: &Ready,
    workers: u8,
    emit: Emit,
    gate: &G,
) -> Result<Text, NoMemory>
    requires some { 1 ≤ workers }
    requires most { workers ≤ 16 }
    requires ready { IsReady text.now ready.now }
    ensures { IfOk result (IsAnnotated emit text.now) }
{
    let words = greatest(rt, alloc, &ready.system, &ready.graph, workers, gate)?;
    let bytes = print(alloc, text, ready, &words, emit)?;
    Ok(bytes)
}

/// What is printed of a text: the text with the words of its module's greatest self-supporting set of facts put in, a line for
/// each insertion, or how often each attribute is added.
///
/// The answer is the same for every number of workers, from 1 to 16.
///
/// # Errors
/// The first cause against the text, as `accept::read` answers it, or that no memory was left.
pub fn annotate<R: Threads + Sync, G: Gate + Sync>(
    rt: &R,
    alloc: Global,
    text: &[u8],
    workers: u8,
    emit: Emit,
    gate: &G,
) -> Result<Annotated, Refusal>
    requires some { 1 ≤ workers }
    requires most { workers ≤ 16 }
    ensures annotated { IfOk result (λ a. IsAnnotated emit text.now a.bytes) }
    ensures refused { IfErr result (IsCause text.now) }
    ensures accepted { IsAccepted text.now → IsOk result ⊎ (result ≡ Err Refusal.NoMemory) }
{
    match read(alloc, text) {
        Ok(ready) => match deduce(rt, alloc, text, &ready, workers, emit, gate) {
            Ok(bytes) => Ok(Annotated { bytes }),
            Err(_) => Err(Refusal::NoMemory),
        },
        Err(refusal) => Err(refusal),
    }
}
