//! The grammar of switches and their faults.

ghost use Rattle.command_words.specs.Laws.{SwitchesLaw};

/// Bytes have no fault as switches exactly where they are switches.
pub fn law_switches()
    ensures { SwitchesLaw }
{}
