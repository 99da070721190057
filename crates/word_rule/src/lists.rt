ghost use Rattle.std.specs.Prelude.{◌≡◌, ◌≢◌, ◌^◌, ◌<◌, ◌≤◌, ◌+◌, ◌∷◌, length, drop, replicate, AllPairs, Contains, vec_capacity};
ghost use Rattle.dep_graph.specs.Graph.{row_at};
ghost use Rattle.fix_core.specs.Machine.{owed_by, without};

use attr_ids::PosId;
use dep_graph::DepGraph;

/// Makes the list one of so many zeros.
pub(crate) fn clear_to(list: &mut Vec<u64>, count: usize)
    requires { count ≤ vec_capacity list.old }
    ensures items { list.new.items ≡ replicate count 0 }
    ensures capacity { vec_capacity list.new ≡ vec_capacity list.old }
{
    list.clear();
    for _ in 0..count {
        list.push_reserved(0);
    }
}

/// Makes the list one of the dependents of the position that read one of the lost bits.
pub(crate) fn owe(list: &mut Vec<PosId>, g: &DepGraph, p: PosId, lost: u64)
    requires place { p.0 < length g.now }
    requires few { length (row_at g.now p.0).dependents < 2 ^ 32 }
    requires reads { length (row_at g.now p.0).reads ≡ length (row_at g.now p.0).dependents }
    requires room { length (row_at g.now p.0).dependents ≤ vec_capacity list.old }
    ensures items { list.new.items ≡ owed_by g.now p.0 lost }
    ensures capacity { vec_capacity list.new ≡ vec_capacity list.old }
{
    list.clear();
    let dependents = g.of(p);
    for (j, d) in dependents.iter().enumerate() {
        if g.read_by(p, j as u32) & lost != 0 {
            list.push_reserved(*d);
        }
    }
}

/// The place of the position in the list, from the place `from` on.
fn find(list: &[PosId], from: usize, d: PosId) -> usize
    requires { Contains (drop from list.now) d }
    ensures within { (from ≤ result) × (result < length list.now) }
    ensures found { drop result list.now ≡ d ∷ drop (result + 1) list.now }
{
    let mut at = from;
    while list[at].0 != d.0 {
        at += 1;
    }
    at
}

/// Takes the position out of those from the place `next` on.
pub(crate) fn strike(list: &mut Vec<PosId>, next: &mut usize, d: PosId)
    requires owed { Contains (drop next.old list.old.items) d }
    requires once { AllPairs (λ a b. a.0 ≢ b.0) (drop next.old list.old.items) }
    ensures items { drop next.new list.new.items ≡ without d (drop next.old list.old.items) }
    ensures capacity { vec_capacity list.new ≡ vec_capacity list.old }
{
    let at = find(list.as_slice(), *next, d);
    if at == *next {
        *next += 1;
    } else {
        list.remove(at);
    }
}
