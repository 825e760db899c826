//! The laws that what the definitions compute is accepted. Each is the contract of a function that does nothing.
ghost use Rattle.laws_accepted.specs.FormLaws.{FormsKeepVariables, FormsStayOrdered};
ghost use Rattle.laws_accepted.specs.GroupLaws.{GroupsMergeAsAll, MergingKeepsSets};
ghost use Rattle.laws_accepted.specs.KeptLaws.{FormsEndAlike, FormsTellKept, GroupsAreEven, KeptMergeArms, OrdersHaveNoSwitch};
ghost use Rattle.laws_accepted.specs.AcceptedLaws.{ComputedAreAccepted, ComputedAreGood, FaultlessIsAccepted, FormIsAccepted, InOrderIsAccepted, ToldStaysOrdered};
ghost use Rattle.laws_accepted.specs.Told.{ChangedIsRetold};

use laws_sound::laws::accepted_are_good;

/// Goals that have one order, with the insts that each goal changes, are told alike: they differ in determinisms and
/// marks alone.
pub fn changed_is_retold()
    ensures { ChangedIsRetold }
{}

/// An ordered goal stays ordered where its determinisms and marks are told.
pub fn told_stays_ordered()
    ensures { ToldStaysOrdered }
{}

/// A procedure without a fault of determinism is accepted, where its body is ordered.
pub fn faultless_is_accepted()
    ensures { FaultlessIsAccepted }
{}

/// A procedure without a fault of determinism is accepted, where its body is the switch form of an ordered goal, told.
pub fn form_is_accepted()
    ensures { FormIsAccepted }
{}

/// The order over nodes of a procedure's goal is that of an ordered goal, and a procedure without a fault of
/// determinism is accepted where its body has that order, or is the switch form, told, of a goal that has it.
pub fn in_order_is_accepted()
    ensures { InOrderIsAccepted }
{}

/// Procedures are accepted, where each is what its phases make.
pub fn computed_procedures_are_accepted()
    ensures { ComputedAreAccepted }
{}

/// The procedures of a system that fits are good, where each is what its phases make: the switch form of an ordered
/// goal, told, without a fault of determinism.
pub fn computed_procedures_are_good()
    ensures { ComputedAreGood }
{
    accepted_are_good()
}

/// What merges the merged insts of groups, as those of a switch's arms, merges all that are in the groups, in any order.
pub fn groups_merge_as_all()
    ensures groups { GroupsMergeAsAll }
    ensures sets { MergingKeepsSets }
{}

/// A goal and its switch form have the same variables.
pub fn forms_keep_variables()
    ensures { FormsKeepVariables }
{}

/// An ordered goal is ordered in its switch form, where the kept insts of arms merge the ends of their disjuncts.
pub fn forms_stay_ordered()
    ensures { FormsStayOrdered }
{}

/// Where what is kept of each group that shares an arm merges the ends of its disjuncts, the arms of the switch form
/// merge.
pub fn kept_merge_arms()
    ensures { KeptMergeArms }
{}

/// A goal that is a switch form for what is kept in two ways tells that the same is kept in both of each group that
/// shares an arm.
pub fn forms_tell_kept()
    ensures { FormsTellKept }
{}

/// An order that is computed has no switch.
pub fn orders_have_no_switch()
    ensures { OrdersHaveNoSwitch }
{}

/// The point after a goal's switch form is reachable exactly where that after the goal is.
pub fn forms_end_alike()
    ensures { FormsEndAlike }
{}

/// At the ends of disjuncts that share an arm, in an order from tidy insts, what the whole binds is free at all or at
/// none, and tidy.
pub fn groups_are_even()
    ensures { GroupsAreEven }
{}
