ghost use Rattle.std.specs.Prelude.{◌≡◌, ◌<◌, ◌^◌, [], ◌∷◌, length, map, slice_get};
ghost use Rattle.ir_module.specs.Edges as spec;

use crate::op::{Cases, Op, Written};
use attr_ids::BlockId;

/// Which of its terminator's edges an edge is.
#[derive(Clone, Copy, PartialEq, Eq)]
pub enum Way {
    /// The one edge of a `br` to a label.
    Jump,
    /// The edges of a `br` on a condition.
    Yes,
    No,
    /// The default of a `switch`.
    Other,
    /// A case of a `switch`, with its literal.
    Case(Written),
    /// The edges of an `invoke`.
    Normal,
    Unwind,
}

/// An edge from a terminator to a block.
#[derive(Clone, Copy, PartialEq, Eq)]
pub struct Edge {
    pub way: Way,
    pub to: BlockId,
}

/// The edge to a case's block.
fn of_cases(cases: &Cases, i: usize) -> Option<Edge>
    ensures { result ≡ slice_get (map spec.case_edge cases.now) i }
{
    match cases.get(i) {
        Some(case) => Some(Edge {
            way: Way::Case(case.val),
            to: case.to,
        }),
        None => None,
    }
}

fn of_switch(other: BlockId, cases: &Cases, i: usize) -> Option<Edge>
    ensures { result ≡ slice_get (spec.edge Way.Other other ∷ map spec.case_edge cases.now) i }
{
    if i == 0 {
        Some(Edge {
            way: Way::Other,
            to: other,
        })
    } else {
        of_cases(cases, i - 1)
    }
}

/// The edge number `i` of two.
fn of_two(first: Edge, second: Edge, i: usize) -> Option<Edge>
    ensures { result ≡ slice_get (first ∷ second ∷ []) i }
{
    match i {
        0 => Some(first),
        1 => Some(second),
        _ => None,
    }
}

impl Op {
    /// How many edges the instruction has: none, if it is no terminator.
    pub fn edge_count(&self) -> usize
        ensures { result ≡ length (spec.edges self.now) }
    {
        match self {
            Op::Jump { .. } => 1,
            Op::Branch { .. } | Op::Invoke { .. } => 2,
            Op::Switch { cases, .. } => 1 + cases.as_slice().len(),
            _ => 0,
        }
    }

    /// The edge number `i` of the instruction, counted from 0 in the order in which their labels are written.
    pub fn edge_at(&self, i: usize) -> Option<Edge>
        ensures { result ≡ slice_get (spec.edges self.now) i }
    {
        match self {
            Op::Jump { to } if i == 0 => Some(Edge {
                way: Way::Jump,
                to: *to,
            }),
            Op::Branch { yes, no, .. } => {
                let yes = Edge {
                    way: Way::Yes,
                    to: *yes,
                };
                let no = Edge {
                    way: Way::No,
                    to: *no,
                };
                of_two(yes, no, i)
            }
            Op::Invoke { normal, unwind, .. } => {
                let normal = Edge {
                    way: Way::Normal,
                    to: *normal,
                };
                let unwind = Edge {
                    way: Way::Unwind,
                    to: *unwind,
                };
                of_two(normal, unwind, i)
            }
            Op::Switch { other, cases, .. } => of_switch(*other, cases, i),
            _ => None,
        }
    }
}
