ghost use Rattle.tests_insts.specs.Definitions.{Forward, Ring, Inside, Both};

/// What definitions are, and which rules they break.
pub fn definitions()
    ensures forward { Forward }
    ensures ring { Ring }
    ensures inside { Inside }
    ensures both { Both }
{}
