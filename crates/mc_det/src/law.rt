ghost use Rattle.mc_det.specs.Marked.{MarksAreKept};
ghost use Rattle.mc_det.specs.Pruned.{PrunedKeepMarks};
ghost use Rattle.mc_det.specs.ConstraintLaws.{SkeletonsTell, LeastBySkeletons};

/// A goal's skeleton comes to what the table says of the goal.
pub fn skeletons_tell()
    ensures { SkeletonsTell }
{}

/// The least determinisms by skeletons are the least by the table.
pub fn least_by_skeletons()
    ensures { LeastBySkeletons }
{}

/// Each goal of a body with its marks keeps the determinism that the table gives it.
pub fn marks_are_kept()
    ensures { MarksAreKept }
{}

/// Each goal of a body with its marks for pruned goals keeps them.
pub fn pruned_keep_marks()
    ensures { PrunedKeepMarks }
{}
