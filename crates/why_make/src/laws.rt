ghost use Rattle.std.specs.Prelude.{◌≡◌, List};
ghost use Rattle.rule_terms.specs.System.{System, IsSystem};
ghost use Rattle.why_check.specs.declared.entry.Entry.{Entry};
ghost use Rattle.why_make.specs.Sweeps.{IsListOfSweeps};

/// Law: the sweeps over a system come to an end, as each that finds something lowers a word.
pub fn every_system_has_a_list_of_sweeps()
    ensures { (s : System) → IsSystem s → (entries : List Entry) × IsListOfSweeps s entries }
{}

/// Law: a system has one list of sweeps at most.
pub fn a_list_of_sweeps_is_one()
    ensures { (s : System) (entries others : List Entry) → IsListOfSweeps s entries → IsListOfSweeps s others → entries ≡ others }
{}
