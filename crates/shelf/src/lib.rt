//! General lemmas that the proofs of the crates above use and that the standard library does not
//! state: what stands at a place of a list that was put together, written or mapped, and what holds
//! of each element. Nothing here runs, and no contract speaks of it; a proof above imports a lemma
//! from `proofs/Shelf.antt` or `proofs/Every.antt`.
#![tactic(auto)]
