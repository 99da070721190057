//! What each kind of atomic step tells its seat: the number that it found, and that the seat is in the state
//! of the core machine that the event leaves it in.
use crate::view::View;
use atomic_table::Play;

/// A fetch that clears all dirty bits of a word.
pub struct TakeStep;

impl Play<(), View> for TakeStep {
    ghost use Rattle.word_rule.specs.Plays.{Takes};

    ghost then = { λ step old found new. Takes step.word old found new };
}

/// A load of an input's word.
pub struct LookStep;

impl Play<(), View> for LookStep {
    ghost use Rattle.word_rule.specs.Plays.{Looks};

    ghost then = { λ step old found new. Looks step.word old found new };
}

/// A fetch that takes facts from a word.
pub struct CutStep;

impl Play<(), View> for CutStep {
    ghost use Rattle.word_rule.specs.Plays.{Cuts};

    ghost then = { λ step old found new. Cuts old found new };
}

/// A fetch that sets the seat's own dirty bit.
pub struct TellStep;

impl Play<(), View> for TellStep {
    ghost use Rattle.word_rule.specs.Plays.{Tells};

    ghost then = { λ step old found new. Tells step.word old found new };
}

/// A load that may find the seat's own dirty bit unset.
pub struct ClearStep;

impl Play<(), View> for ClearStep {
    ghost use Rattle.word_rule.specs.Plays.{Clears};

    ghost then = { λ step old found new. Clears step.word old found new };
}
