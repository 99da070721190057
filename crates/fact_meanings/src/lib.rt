//! What the facts of a module say of the states of a run and of its events. A set of facts goes in; what it says
//! of a value, of a frame, of a state and of a run are definitions of `specs`, which the laws prove of every set
//! that supports itself, in every honest run. There is no code here.
#![tactic(auto)]
