ghost use Rattle.std.specs.Prelude.{◌≡◌, drop};
ghost use Rattle.ir_machine.specs.Reading.{pick};

use std::marker::Model;

/// The picks that are left of a step, which contracts see as the list of them.
#[derive(Drop)]
pub struct Picks<'a> {
    rest: &'a [u64],
}

impl<'a> Model for Picks<'a> {
    ghost use Rattle.std.specs.Prelude.{List, ℕ};

    ghost Value = { List ℕ };

    ghost view = { λ picks. picks.rest.now };
}

impl<'a> Picks<'a> {
    pub fn new(rest: &'a [u64]) -> Picks<'a>
        ensures { result ≡ rest.now }
    {
        Picks { rest }
    }

    /// The next pick; a missing one is 0.
    pub fn next(&mut self) -> u64
        ensures value { result ≡ pick self.old }
        ensures rest { self.new ≡ drop 1 self.old }
    {
        match self.rest {
            [] => 0,
            [first, rest @ ..] => {
                self.rest = rest;
                *first
            }
        }
    }
}
