//! The laws of switches. Each is the contract of a function that does nothing.
ghost use Rattle.laws_procedures.specs.FormsMerge.{FormsMerge};

/// The arms of a body in switch form merge their disjuncts.
pub fn forms_merge()
    ensures { FormsMerge }
{}
