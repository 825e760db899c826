ghost use Rattle.std.specs.Prelude.{◌↔◌, IsTrue};
ghost use Rattle.mc_analysis.specs.Premises.{CommittedAreMany};
ghost use Rattle.mc_analysis.specs.code.Committed.{EachHasMany, ModesHaveMany, HasMany};

use mc_model::inst::{ModeDecl, Sig};
use mc_source::det::Most;

/// Whether each declared determinism that is committed has many answers.
pub(crate) fn committed_are_many(sigs: &[Sig]) -> bool
    ensures { IsTrue result ↔ CommittedAreMany sigs.now }
{
    each_has_many(sigs)
}

/// The same of the modes of each predicate.
fn each_has_many(sigs: &[Sig]) -> bool
    ensures { IsTrue result ↔ EachHasMany sigs.now }
{
    for sig in sigs {
        if !modes_have_many(sig.modes.as_slice()) {
            return false;
        }
    }
    true
}

/// The same of these modes.
fn modes_have_many(modes: &[ModeDecl]) -> bool
    ensures { IsTrue result ↔ ModesHaveMany modes.now }
{
    for mode in modes {
        if !has_many(mode) {
            return false;
        }
    }
    true
}

/// Whether a mode's declared determinism has many answers, where it is committed.
fn has_many(mode: &ModeDecl) -> bool
    ensures { IsTrue result ↔ HasMany mode.now }
{
    match mode.det {
        Some(det) => !det.committed || det.most == Most::Many,
        None => true,
    }
}
