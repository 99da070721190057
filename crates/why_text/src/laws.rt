ghost use Rattle.std.specs.Prelude.{◌≡◌, List};
ghost use Rattle.rule_terms.specs.System.{System};
ghost use Rattle.why_check.specs.Removal.{IsRemoval};
ghost use Rattle.why_check.specs.declared.entry.Entry.{Entry};
ghost use Rattle.why_text.specs.Certificate.{IsCertificate, NamePositions};

/// Law: a system has one certificate at most.
pub fn a_system_has_one_certificate()
    ensures { (s : System) (entries others : List Entry) → IsCertificate s entries → IsCertificate s others → entries ≡ others }
{}

/// Law: the entries of a removal name positions of the system.
pub fn certificates_name_positions()
    ensures { (s : System) (entries : List Entry) → IsRemoval s entries → NamePositions s.masks entries }
{}
