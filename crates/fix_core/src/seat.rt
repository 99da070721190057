ghost use Rattle.std.specs.Prelude.{◌≡◌, ◌+◌, ◌^◌, ◌<◌, length, IfOk};
ghost use Rattle.fix_core.specs.Machine.{after_take, after_look, after_tell, after_clear, owing, dirty_at};

use crate::lists::{copy_of, nothing_looked, with_position, without_position};
use crate::state::{CoreMode, CoreSeat, LookedList};
use attr_ids::{NoMemory, PosId, PosList};
use lattice_words::word::{DIRTY, FACTS};
use rule_terms::System;
use std::alloc::Global;

/// The mode of a seat that owes these positions, or none.
pub(crate) fn mode_owing(list: PosList) -> CoreMode
    ensures { result ≡ owing list }
{
    if list.is_empty() {
        return CoreMode::Idle;
    }
    CoreMode::Owes { list }
}

impl CoreSeat {
    /// The seat with another mode, and all else as it is.
    pub(crate) fn in_mode(&self, alloc: Global, mode: CoreMode) -> Result<CoreSeat, NoMemory>
        ensures { IfOk result (λ seat. seat ≡ record { mode = mode; known = self.now.known; took = self.now.took; told = self.now.told }) }
    {
        let known = copy_of(alloc, &self.known)?;
        Ok(CoreSeat {
            mode,
            known,
            took: self.took,
            told: self.told,
        })
    }

    /// The seat once it found the word of the position `p` and took it up if it was dirty.
    pub(crate) fn taking(
        &self,
        alloc: Global,
        s: &System,
        p: PosId,
        word: u64,
    ) -> Result<CoreSeat, NoMemory>
        requires place { p.0 < length s.now.masks }
        requires took { self.now.took + 1 < 2 ^ 64 }
        ensures { IfOk result (λ seat. seat ≡ after_take s.now p word self.now) }
    {
        let known = with_position(alloc, &self.known, p)?;
        let told = self.told;
        if word >> DIRTY == 0 {
            return Ok(CoreSeat {
                mode: CoreMode::Idle,
                known,
                took: self.took,
                told,
            });
        }
        let looked = nothing_looked(alloc, s.inputs(p).len())?;
        Ok(CoreSeat {
            mode: CoreMode::Open { p, looked },
            known,
            took: self.took + 1,
            told,
        })
    }

    /// The seat once it found the word of the input number `i` of the position that it has open.
    pub(crate) fn looking(
        &self,
        alloc: Global,
        p: PosId,
        looked: &LookedList,
        i: u32,
        word: u64,
    ) -> Result<CoreSeat, NoMemory>
        requires { i < length looked.now }
        ensures { IfOk result (λ seat. seat ≡ after_look p looked.now i word self.now) }
    {
        let mut looked = copy_of(alloc, looked)?;
        looked.set(i as usize, Some(word & FACTS));
        self.in_mode(alloc, CoreMode::Open { p, looked })
    }

    /// The seat number `w` once it told the position `d`, whose word it found.
    pub(crate) fn telling(
        &self,
        alloc: Global,
        w: u8,
        d: PosId,
        list: &PosList,
        word: u64,
    ) -> Result<CoreSeat, NoMemory>
        requires number { w < 16 }
        requires told { self.now.told + 1 < 2 ^ 64 }
        ensures { IfOk result (λ seat. seat ≡ after_tell w d list.now word self.now) }
    {
        let list = without_position(alloc, d, list.as_slice())?;
        let known = without_position(alloc, d, self.known.as_slice())?;
        let unset = word >> (DIRTY + w as u32) & 1 == 0;
        Ok(CoreSeat {
            mode: mode_owing(list),
            known,
            took: self.took,
            told: if unset { self.told + 1 } else { self.told },
        })
    }
}
