//! A table of names that is being filled.
ghost use Rattle.std.specs.Prelude.{◌≡◌, ◌++◌, ◌∷◌, [], List, ℕ, OnOk};
ghost use Rattle.std.specs.Option.{is_some};
ghost use Rattle.ir_scopes.specs.declared.slot.Entry.{Entry as TheEntry};
ghost use Rattle.ir_scopes.specs.Faults.{first_in};
ghost use Rattle.ir_scopes.specs.Scopes.{find, twice};
ghost use Rattle.ir_scopes.specs.Enters.{Knows, Enters};

use crate::faults::{Cause, NameFault, lesser};
use crate::slot::{Counts, Entry, Slot, counted, entry_of, name_in};
use attr_ids::NoMemory;
use indexmap::IndexMap;
use ir_tree::Leaf;
use std::alloc::Global;

/// What each name stands for: the first thing that was defined under it.
pub type Names = IndexMap<u32, Entry>;

/// The names of one space, how many things were defined so far, and the first fault that was found.
#[derive(Drop)]
pub struct Scope {
    pub names: Names,
    pub counts: Counts,
    pub found: Option<NameFault>,
}

impl Scope {
    /// No names.
    pub fn new(alloc: Global, counts: Counts, found: Option<NameFault>) -> Scope
        ensures names { Knows result.names [] }
        ensures counts { result.counts ≡ counts }
        ensures found { result.found ≡ found }
    {
        Scope {
            names: IndexMap::new(alloc),
            counts,
            found,
        }
    }

    /// Takes a definition in. A second one of a name is a fault, and the first one stays.
    fn define(&mut self, id: u32, entry: Entry, written: Option<Leaf>) -> Result<(), NoMemory>
        ensures names { OnOk result ((before : List (ℕ × TheEntry)) → Knows self.old.names before → Knows self.new.names (before ++ (id, entry) ∷ [])) }
        ensures found { OnOk result ((before : List (ℕ × TheEntry)) → Knows self.old.names before →
            self.new.found ≡ first_in self.old.found (twice (is_some (find before id)) written)) }
        ensures counts { OnOk result (self.new.counts ≡ self.old.counts) }
    {
        if self.names.contains_key(&id) {
            if let Some(at) = written {
                self.found = lesser(
                    self.found,
                    NameFault {
                        cause: Cause::Twice,
                        at,
                    },
                );
            }
            return Ok(());
        }
        self.names.insert(id, entry)?;
        Ok(())
    }

    /// Takes the next thing in.
    pub(crate) fn enter(&mut self, ids: &[u32], slot: Slot) -> Result<(), NoMemory>
        ensures { OnOk result ((before : List (ℕ × TheEntry)) → Knows self.old.names before → Enters ids.now before (slot ∷ []) self.old self.new) }
    {
        let id = name_in(ids, self.counts.counter, slot.written)?;
        let counts = counted(self.counts, slot.kind, id)?;
        self.define(id, entry_of(self.counts, slot.kind), slot.written)?;
        self.counts = counts;
        Ok(())
    }
}
