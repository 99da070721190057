ghost use Rattle.std.specs.Prelude.{◌≡◌, ℕ, ◌+◌, ◌^◌, ◌<◌, ◌≤◌, [], length, vec_capacity};
ghost use Rattle.rule_terms.specs.Slots.{input_at};
ghost use Rattle.rule_terms.specs.System.{inputs_of};
ghost use Rattle.dep_graph.specs.Graph.{row_at};

use crate::view::{CoreRule, Key, View};
use atomic_table::Table;
use dep_graph::DepGraph;
use rule_terms::System;
use std::alloc::Global;

/// The words of a system's positions, which workers change in single atomic steps, each with a seat of its own.
#[derive(Drop)]
pub struct LatticeWords<'s> {
    pub(crate) system: &'s System,
    pub(crate) graph: &'s DepGraph,
    pub(crate) table: Table<(), View, Key, CoreRule, Global>,
    pub(crate) into: Vec<u64>,
    ghost about_system: { table.shared.key.system.value ≡ system.now },
    ghost about_graph: { table.shared.key.graph.value ≡ graph.now },
    ghost workers: { (0 < table.shared.key.workers) × (table.shared.key.workers ≤ 16) },
    ghost sized: { table.shared.table_id.words ≡ length system.now.masks + 1 },
    ghost slotless: { table.shared.table_id.slots ≡ 0 },
    ghost inner: { (p i : ℕ) → i < length (inputs_of system.now p) → (input_at (inputs_of system.now p) i).0 < length system.now.masks },
    ghost rows: { length graph.now ≡ length system.now.masks },
    ghost reads: { (p : ℕ) → p < length system.now.masks → length (row_at graph.now p).reads ≡ length (row_at graph.now p).dependents },
    ghost few: { (p : ℕ) → p < length system.now.masks → length (row_at graph.now p).dependents < 2 ^ 32 },
    ghost unfilled: { into.items ≡ [] },
    ghost room: { length system.now.masks ≤ vec_capacity into },
}
