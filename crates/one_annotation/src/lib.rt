//! Annotated texts. A text goes in for which two runs of the program printed something; they printed the same, whatever the numbers
//! of workers were and in whatever order their steps fell. There is no code here that runs: who runs the program cites the law where
//! it rests on one answer.
#![tactic(auto)]

mod laws;

pub use laws::one_annotation;
