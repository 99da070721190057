//! What a seat knows, and the rule that the table keeps. No value of these types is made while the program
//! runs, but the key with which a table is opened; they are there for contracts.
use atomic_table::{Join, Split, TableRule};
use dep_graph::DepGraph;
use fix_core::CoreSeat;
use rule_terms::System;
use std::collections::LinkedList;
use std::snapshot::Snapshot;

/// What a table is about: a system, its graph, and for how many workers it was opened.
#[derive(Drop)]
pub struct Key {
    pub system: Snapshot<System>,
    pub graph: Snapshot<DepGraph>,
    pub workers: u8,
}

/// A seat that was joined away. It is marked if it knew every position then.
pub struct Joined {
    pub number: u8,
    pub marked: bool,
}

/// What one seat knows: the table that it belongs to, or `None` once it was joined away, its number, its state in
/// the core machine, and the word that its last step found. Seat 0 also knows how many seats were made, and which
/// were joined away.
pub struct View {
    pub about: Option<Key>,
    pub number: u8,
    pub core: CoreSeat,
    pub found: u64,
    pub made: u8,
    pub joined: LinkedList<Joined>,
}

/// The words and the seats are a state of the core machine that meets the core invariant and its counts.
pub struct CoreRule;

impl TableRule<(), View, Key> for CoreRule {
    ghost use Rattle.word_rule.specs.Views.{first_view};
    ghost use Rattle.word_rule.specs.Rule.{IsRuled};

    ghost holds = { IsRuled };

    ghost first = { first_view };
}

/// Seat 0 makes the next seat.
pub struct Making;

impl Split<View> for Making {
    ghost use Rattle.word_rule.specs.Views.{after_making, next_view};

    ghost left = { after_making };

    ghost right = { next_view };
}

/// Seat 0 takes in another seat.
pub struct Joining;

impl Join<View> for Joining {
    ghost use Rattle.word_rule.specs.Views.{after_joining, spent};

    ghost both = { after_joining };

    ghost spent = { spent };
}
