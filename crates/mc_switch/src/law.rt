ghost use Rattle.mc_switch.specs.SwitchedBodies.{ClosedForms, ClosedSuit};

/// Where determinisms are closed, calls have no answer exactly where their procedures are declared to have none.
pub fn closed_suit()
    ensures { ClosedSuit }
{}

/// Under closed determinisms each body is the switch form of what it was.
pub fn closed_forms()
    ensures { ClosedForms }
{}
