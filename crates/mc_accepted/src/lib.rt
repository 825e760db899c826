//! Which procedures the language accepts: typing, scope, normal goals, the order of goals, insts within insts and
//! determinism. There is nothing to run here.
#![tactic(auto)]
