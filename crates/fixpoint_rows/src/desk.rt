//! What a line leaves for the next one.
use attr_ids::{NoMemory, WordList};
use row_lists::{EdgeRows, Rows};
use rule_terms::System;
use std::alloc::Global;

#[derive(Drop)]
pub(crate) struct Desk {
    pub rows: Rows<u32>,
    pub edges: EdgeRows,
    pub system: System,
}

impl Desk {
    pub(crate) fn new(alloc: Global) -> Result<Desk, NoMemory> {
        let rows = Rows::with_rooms(alloc, &[], 0)?;
        let edges = EdgeRows::new(alloc, 0)?;
        let system = System::new(alloc, WordList::new(alloc))?;
        Ok(Desk {
            rows,
            edges,
            system,
        })
    }
}
