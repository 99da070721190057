//! Sweeps that look only at positions one of whose inputs fell since they were last looked at.
ghost use Rattle.std.specs.Prelude.{◌≡◌, ◌<◌, ◌≤◌, ◌+◌, ◌*◌, ℕ, Err, length, min, All, OnOk, IfOk};
ghost use Rattle.dep_graph.specs.Graph.{IsGraphOf, row_at};
ghost use Rattle.why_make.specs.Going.{IsSettled, Overflows, SweepsOverflow, Went};
ghost use Rattle.why_make.specs.Marked.{AreMarked, AreWoken};
ghost use Rattle.why_make.specs.Sweeps.{opening};
ghost use Rattle.why_make.specs.declared.marks.TheConstants.{BLOCK};

use crate::course::{Course, visit};
use crate::marks::{BLOCK, Marks};
use crate::refusal::{MAX_ENTRIES, WhyRefusal};
use attr_ids::PosId;
use dep_graph::DepGraph;
use rule_terms::System;
use std::alloc::Global;

/// Gives each dependent of a position a mark.
fn wake(g: &DepGraph, marks: &mut Marks, p: PosId)
    requires position { p.0 < length g.now }
    requires within { All (λ d. d.0 < length marks.old) (row_at g.now p.0).dependents }
    ensures { AreWoken (row_at g.now p.0).dependents (length (row_at g.now p.0).dependents) marks.old marks.new }
{
    for d in g.of(p) {
        marks.set(*d);
    }
}

/// Visits a position that has a mark, takes its mark away, and gives marks to its dependents if it lost facts.
fn look(
    s: &System,
    g: &DepGraph,
    marks: &mut Marks,
    course: &mut Course,
    p: PosId,
) -> Result<bool, WhyRefusal>
    requires place { p.0 < length s.now.masks }
    requires long { length course.old.words ≡ length s.now.masks }
    requires graph { IsGraphOf s.now g.now }
    requires marked { AreMarked s.now course.old.words marks.old }
    ensures went { IfOk result (λ fell. Went s.now course.old course.new p.0 (p.0 + 1) fell) }
    ensures marked { OnOk result (AreMarked s.now course.new.words marks.new) }
    ensures too_many { (count : ℕ) → result ≡ Err (WhyRefusal.TooMany count) → Overflows s.now course.old p.0 (p.0 + 1) count }
{
    if !marks.take(p) {
        return Ok(false);
    }
    if !visit(s, course, p)? {
        return Ok(false);
    }
    wake(g, marks, p);
    Ok(true)
}

/// Looks at the positions from one number up to another.
fn look_at_all(
    s: &System,
    g: &DepGraph,
    marks: &mut Marks,
    course: &mut Course,
    from: u32,
    to: u32,
) -> Result<bool, WhyRefusal>
    requires places { (from ≤ to) × (to ≤ length s.now.masks) }
    requires long { length course.old.words ≡ length s.now.masks }
    requires graph { IsGraphOf s.now g.now }
    requires marked { AreMarked s.now course.old.words marks.old }
    ensures went { IfOk result (λ fell. Went s.now course.old course.new from to fell) }
    ensures marked { OnOk result (AreMarked s.now course.new.words marks.new) }
    ensures too_many { (count : ℕ) → result ≡ Err (WhyRefusal.TooMany count) → Overflows s.now course.old from to count }
{
    let mut fell = false;
    for p in from..to {
        if look(s, g, marks, course, PosId(p))? {
            fell = true;
        }
    }
    Ok(fell)
}

/// Looks at the positions of a block, unless none of them has a mark.
fn look_at_block(
    s: &System,
    g: &DepGraph,
    marks: &mut Marks,
    course: &mut Course,
    b: u32,
) -> Result<bool, WhyRefusal>
    requires places { b * BLOCK ≤ length s.now.masks }
    requires long { length course.old.words ≡ length s.now.masks }
    requires graph { IsGraphOf s.now g.now }
    requires marked { AreMarked s.now course.old.words marks.old }
    ensures went { IfOk result (λ fell. Went s.now course.old course.new (b * BLOCK) (min (b * BLOCK + BLOCK) (length s.now.masks)) fell) }
    ensures marked { OnOk result (AreMarked s.now course.new.words marks.new) }
    ensures too_many { (count : ℕ) → result ≡ Err (WhyRefusal.TooMany count) →
        Overflows s.now course.old (b * BLOCK) (min (b * BLOCK + BLOCK) (length s.now.masks)) count }
{
    if !marks.may_have(b as usize) {
        return Ok(false);
    }
    let from = b as usize * BLOCK;
    let to = (from + BLOCK).min(s.count() as usize);
    let fell = look_at_all(s, g, marks, course, from as u32, to as u32)?;
    marks.look_through(b as usize);
    Ok(fell)
}

/// Looks once at each position that has a mark when its turn comes, and says whether one lost facts.
fn sweep_marked(
    s: &System,
    g: &DepGraph,
    marks: &mut Marks,
    course: &mut Course,
) -> Result<bool, WhyRefusal>
    requires long { length course.old.words ≡ length s.now.masks }
    requires graph { IsGraphOf s.now g.now }
    requires marked { AreMarked s.now course.old.words marks.old }
    ensures went { IfOk result (λ fell. Went s.now course.old course.new 0 (length s.now.masks) fell) }
    ensures marked { OnOk result (AreMarked s.now course.new.words marks.new) }
    ensures too_many { (count : ℕ) → result ≡ Err (WhyRefusal.TooMany count) → Overflows s.now course.old 0 (length s.now.masks) count }
{
    let mut fell = false;
    for b in 0..s.count() / BLOCK as u32 + 1 {
        if look_at_block(s, g, marks, course, b)? {
            fell = true;
        }
    }
    Ok(fell)
}

/// Sweeps until a sweep finds nothing.
pub(crate) fn settle_marked(
    alloc: Global,
    s: &System,
    g: &DepGraph,
    course: &mut Course,
) -> Result<(), WhyRefusal>
    requires course { course.old ≡ opening s.now }
    requires graph { IsGraphOf s.now g.now }
    ensures settled { OnOk result (IsSettled s.now course.new) }
    ensures short { OnOk result (length course.new.entries ≤ MAX_ENTRIES) }
    ensures too_many { (count : ℕ) → result ≡ Err (WhyRefusal.TooMany count) → SweepsOverflow s.now count }
{
    let mut marks = Marks::new(alloc, s.count())?;
    'settling: while sweep_marked(s, g, &mut marks, course)? {}
    Ok(())
}
