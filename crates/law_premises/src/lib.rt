//! What laws take as given of a run, and in which form they are stated: sets of facts that justify themselves, and, of
//! each step, what the law of another kind of fact shows. The laws do not stand on each other; the layer above them
//! hands to each what the others show. There is no code here.
#![tactic(auto)]
