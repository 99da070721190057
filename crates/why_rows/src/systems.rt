//! Systems, made term by term.
ghost use Rattle.rule_terms.specs.declared.term.NewTerm.TheOpen.{NewTerm-F as new};
ghost use Rattle.rule_terms.specs.declared.term.NewTerm.TheViews.{roll-NewTerm};
ghost use Rattle.std.specs.Prelude.{◌≡◌, ◌^◌, ◌<◌, IsTrue, IfOk, All, length};

use crate::line::Line;
use crate::numbers::{at, place, small};
use attr_ids::{NoMemory, PosId, WordList};
use lattice_words::word::FACT_BITS;
use rule_terms::{NewTerm, System};
use sqlite_items::Boxed;
use std::alloc::Global;

/// How many positions a system has here, at most.
const MANY: usize = 10_000;

fn boxed(alloc: Global, term: NewTerm) -> Result<Boxed<NewTerm>, NoMemory>
    ensures { IfOk result (λ part. part ≡ term) }
{
    Ok(Boxed::new(alloc, term)?)
}

fn word(alloc: Global, input: PosId) -> Result<Boxed<NewTerm>, NoMemory>
    ensures { IfOk result (λ part. part ≡ roll-NewTerm (new.Word input)) }
{
    boxed(alloc, NewTerm::Word(input))
}

/// Whether each word has facts alone.
fn are_facts(words: &[u64]) -> bool
    ensures { IsTrue result → All (λ word. word < 2 ^ FACT_BITS) words.now }
{
    for word in words {
        if *word >= 1 << FACT_BITS {
            return false;
        }
    }
    true
}

/// Makes a system with these masks.
fn open(alloc: Global, s: &mut System, masks: &[u64]) -> Result<(), NoMemory> {
    if are_facts(masks) && masks.len() < MANY {
        *s = System::new(alloc, WordList::from_slice(alloc, masks)?)?;
    }
    Ok(())
}

fn meet_const(alloc: Global, s: &mut System, p: PosId, bits: u64) -> Result<(), NoMemory> {
    if p.0 < s.count() {
        return s.meet(alloc, p, NewTerm::Const(bits));
    }
    Ok(())
}

#[tactic(auto, using(rule_terms::proofs::Equations::equations))]
fn meet_word(alloc: Global, s: &mut System, p: PosId, input: PosId) -> Result<(), NoMemory> {
    if p.0 < s.count() && input.0 < s.count() {
        return s.meet(alloc, p, NewTerm::Word(input));
    }
    Ok(())
}

/// Some bits of an input.
fn some_bits(alloc: Global, input: PosId, bits: u64) -> Result<Boxed<NewTerm>, NoMemory>
    ensures { IfOk result (λ part. part ≡ roll-NewTerm (new.And (roll-NewTerm (new.Word input)) (roll-NewTerm (new.Const bits)))) }
{
    let word = word(alloc, input)?;
    let some = boxed(alloc, NewTerm::Const(bits))?;
    boxed(alloc, NewTerm::And(word, some))
}

/// Some bits of one input, and all bits of the other.
#[tactic(auto, using(rule_terms::proofs::Equations::equations))]
fn meet_either(alloc: Global, s: &mut System, n: &[u64]) -> Result<(), NoMemory> {
    let (p, input, bits, other) = (place(n, 0), place(n, 1), at(n, 2), place(n, 3));
    if p.0 < s.count() && input.0 < s.count() && other.0 < s.count() {
        let both = some_bits(alloc, input, bits)?;
        let other = word(alloc, other)?;
        return s.meet(alloc, p, NewTerm::Or(both, other));
    }
    Ok(())
}

/// As many masks.
fn repeated(alloc: Global, count: u64, mask: u64) -> Result<Vec<u64>, NoMemory> {
    let mut masks = Vec::new(alloc);
    for _ in 0..count {
        masks.push(mask)?;
    }
    Ok(masks)
}

/// Each position has the facts of the next one, and the last one none.
fn link(alloc: Global, s: &mut System) -> Result<(), NoMemory> {
    for p in 1..s.count() {
        meet_word(alloc, s, PosId(p - 1), PosId(p))?;
    }
    if s.count() > 0 {
        let last = s.count() - 1;
        return meet_const(alloc, s, PosId(last), 0);
    }
    Ok(())
}

/// So many positions, each of which has the facts of the next one, and the last one none: a long way from its end.
fn chain(alloc: Global, s: &mut System, count: u64, mask: u64, line: &mut Line) {
    match repeated(alloc, count, mask) {
        Ok(masks) => line.keep(open(alloc, s, &masks)),
        Err(NoMemory) => line.lose(),
    }
    line.keep(link(alloc, s))
}

/// Changes the system, if the call is one that does.
pub(crate) fn answer(
    alloc: Global,
    s: &mut System,
    call: &str,
    n: &[u64],
    line: &mut Line,
) -> bool {
    match call {
        "masks" => line.keep(open(alloc, s, n)),
        "meet_const" => line.keep(meet_const(alloc, s, place(n, 0), at(n, 1))),
        "meet_word" => line.keep(meet_word(alloc, s, place(n, 0), place(n, 1))),
        "meet_either" => line.keep(meet_either(alloc, s, n)),
        "chain" => chain(alloc, s, u64::from(small(n, 0)), at(n, 1), line),
        _ => return false,
    }
    true
}
