//! Systems of terms, and the last pass over their words.
ghost use Rattle.rule_terms.specs.declared.term.NewTerm.TheOpen.{NewTerm-F as new};
ghost use Rattle.rule_terms.specs.declared.term.NewTerm.TheViews.{roll-NewTerm};
ghost use Rattle.std.specs.Prelude.{◌≡◌, ◌^◌, ◌<◌, IsTrue, IfOk, All, length};

use crate::line::Line;
use crate::numbers::{at, place, rest, shared, small};
use attr_ids::{EndList, NoMemory, PosId, WordList, WorkerEnd};
use closing_pass::close;
use lattice_words::word::FACT_BITS;
use rule_terms::{NewTerm, System};
use sqlite_items::Boxed;
use std::alloc::Global;

/// How many inputs of a position are answered at most.
const MANY: u32 = 1000;

fn boxed(alloc: Global, term: NewTerm) -> Result<Boxed<NewTerm>, NoMemory>
    ensures { IfOk result (λ part. part ≡ term) }
{
    Ok(Boxed::new(alloc, term)?)
}

fn word(alloc: Global, input: PosId) -> Result<Boxed<NewTerm>, NoMemory>
    ensures { IfOk result (λ part. part ≡ roll-NewTerm (new.Word input)) }
{
    boxed(alloc, NewTerm::Word(input))
}

/// Whether each word has facts alone.
fn are_facts(words: &[u64]) -> bool
    ensures { IsTrue result → All (λ word. word < 2 ^ FACT_BITS) words.now }
{
    for word in words {
        if *word >= 1 << FACT_BITS {
            return false;
        }
    }
    true
}

/// Makes a system with these masks.
fn open(alloc: Global, s: &mut System, masks: &[u64]) -> Result<(), NoMemory> {
    if are_facts(masks) && masks.len() < 1000 {
        *s = System::new(alloc, WordList::from_slice(alloc, masks)?)?;
        shared(s);
    }
    Ok(())
}

fn meet_const(alloc: Global, s: &mut System, n: &[u64]) -> Result<(), NoMemory> {
    let p = place(n, 0);
    if p.0 < s.count() {
        return s.meet(alloc, p, NewTerm::Const(at(n, 1)));
    }
    Ok(())
}

#[tactic(auto, using(rule_terms::proofs::Equations::equations))]
fn meet_word(alloc: Global, s: &mut System, n: &[u64]) -> Result<(), NoMemory> {
    let (p, input) = (place(n, 0), place(n, 1));
    if p.0 < s.count() && input.0 < s.count() {
        return s.meet(alloc, p, NewTerm::Word(input));
    }
    Ok(())
}

/// All bits where the bit of one input is set, else the word of the other.
#[tactic(auto, using(rule_terms::proofs::Equations::equations))]
fn meet_unless(alloc: Global, s: &mut System, n: &[u64]) -> Result<(), NoMemory> {
    let (p, input, bit, other) = (place(n, 0), place(n, 1), small(n, 2), place(n, 3));
    if p.0 < s.count() && input.0 < s.count() && bit < 64 && other.0 < s.count() {
        let then = word(alloc, other)?;
        return s.meet(alloc, p, NewTerm::Unless { input, bit, then });
    }
    Ok(())
}

/// Some bits of an input.
fn some_bits(alloc: Global, input: PosId, bits: u64) -> Result<Boxed<NewTerm>, NoMemory>
    ensures { IfOk result (λ part. part ≡ roll-NewTerm (new.And (roll-NewTerm (new.Word input)) (roll-NewTerm (new.Const bits)))) }
{
    let word = word(alloc, input)?;
    let some = boxed(alloc, NewTerm::Const(bits))?;
    boxed(alloc, NewTerm::And(word, some))
}

/// Some bits of one input, and all bits of the other.
#[tactic(auto, using(rule_terms::proofs::Equations::equations))]
fn meet_either(alloc: Global, s: &mut System, n: &[u64]) -> Result<(), NoMemory> {
    let (p, input, bits, other) = (place(n, 0), place(n, 1), at(n, 2), place(n, 3));
    if p.0 < s.count() && input.0 < s.count() && other.0 < s.count() {
        let both = some_bits(alloc, input, bits)?;
        let other = word(alloc, other)?;
        return s.meet(alloc, p, NewTerm::Or(both, other));
    }
    Ok(())
}

#[tactic(auto, using(rule_terms::proofs::Equations::equations))]
fn meet_shift(alloc: Global, s: &mut System, n: &[u64]) -> Result<(), NoMemory> {
    let (p, bytes, input) = (place(n, 0), at(n, 1), place(n, 2));
    if p.0 < s.count() && input.0 < s.count() {
        let of = word(alloc, input)?;
        return s.meet(alloc, p, NewTerm::Shift { bytes, of });
    }
    Ok(())
}

#[tactic(auto, using(rule_terms::proofs::Equations::equations))]
fn meet_keep_align(alloc: Global, s: &mut System, n: &[u64]) -> Result<(), NoMemory> {
    let (p, step, input) = (place(n, 0), at(n, 1), place(n, 2));
    if p.0 < s.count() && input.0 < s.count() {
        let of = word(alloc, input)?;
        return s.meet(alloc, p, NewTerm::KeepAlign { step, of });
    }
    Ok(())
}

#[tactic(auto, using(rule_terms::proofs::Equations::equations))]
fn meet_spread(alloc: Global, s: &mut System, n: &[u64]) -> Result<(), NoMemory> {
    let (p, bit, to, input) = (place(n, 0), small(n, 1), at(n, 2), place(n, 3));
    if p.0 < s.count() && bit < 64 && input.0 < s.count() {
        let of = word(alloc, input)?;
        return s.meet(alloc, p, NewTerm::Spread { bit, to, of });
    }
    Ok(())
}

/// Answers a position's mask, its inputs, and what is read of each.
fn put_position(line: &mut Line, s: &System, p: PosId) {
    if p.0 < s.count() {
        line.push(s.mask(p));
        line.put_places(s.inputs(p));
        for i in 0..MANY {
            if i as usize >= s.inputs(p).len() {
                break;
            }
            line.push(s.reads(p, i));
        }
    }
}

/// Answers what a position's mask and terms leave over these words of its inputs.
fn eval(line: &mut Line, s: &System, n: &[u64]) {
    let p = place(n, 0);
    let looked = rest(n, 1);
    if p.0 < s.count() && s.inputs(p).len() == looked.len() {
        line.push(s.eval(p, looked));
    }
}

/// Answers what a position's mask and terms leave over these words of all positions.
fn eval_in(alloc: Global, line: &mut Line, s: &System, n: &[u64]) {
    let p = place(n, 0);
    let Ok(words) = WordList::from_slice(alloc, rest(n, 1)) else {
        return line.lose();
    };
    if p.0 < s.count() && words.len() == s.count() as usize {
        line.push(s.eval_in(p, &words));
    }
}

/// The end of a worker that is and of one that is spent, if there is one.
fn ends(alloc: Global, is_spent: bool) -> Result<EndList, NoMemory> {
    let mut ends = EndList::new(alloc);
    ends.push(WorkerEnd::Done)?;
    if is_spent {
        ends.push(WorkerEnd::Spent)?;
    }
    Ok(ends)
}

/// Answers these words closed, after a worker that is done and, if the first number is not 0, one that is spent.
fn put_closed(alloc: Global, line: &mut Line, s: &System, n: &[u64]) {
    let Ok(ends) = ends(alloc, at(n, 0) != 0) else {
        return line.lose();
    };
    let Ok(words) = WordList::from_slice(alloc, rest(n, 1)) else {
        return line.lose();
    };
    if words.len() == s.count() as usize {
        line.put_all(close(s, words, &ends).as_slice());
    }
}

/// Meets a term into a position, if the call is one that does.
fn meet(alloc: Global, s: &mut System, call: &str, n: &[u64], line: &mut Line) -> bool {
    line.keep(match call {
        "meet_const" => meet_const(alloc, s, n),
        "meet_word" => meet_word(alloc, s, n),
        "meet_unless" => meet_unless(alloc, s, n),
        "meet_either" => meet_either(alloc, s, n),
        "meet_shift" => meet_shift(alloc, s, n),
        "meet_keep_align" => meet_keep_align(alloc, s, n),
        "meet_spread" => meet_spread(alloc, s, n),
        _ => return false,
    });
    true
}

/// Answers a call of a system, if it is one.
pub(crate) fn answer(
    alloc: Global,
    s: &mut System,
    call: &str,
    n: &[u64],
    line: &mut Line,
) -> bool {
    match call {
        "masks" => line.keep(open(alloc, s, n)),
        "count" => line.push(u64::from(s.count())),
        "position" => put_position(line, s, place(n, 0)),
        "eval" => eval(line, s, n),
        "eval_in" => eval_in(alloc, line, s, n),
        "closed" => put_closed(alloc, line, s, n),
        _ => return meet(alloc, s, call, n, line),
    }
    true
}
