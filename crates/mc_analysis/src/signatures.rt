ghost use Rattle.std.specs.Prelude.{◌↔◌, IsTrue};
ghost use Rattle.mc_procs.specs.Named.{NumbersBelow};
ghost use Rattle.mc_mode_state.specs.Modes.{ModeFits, ModesFit};
ghost use Rattle.mc_modes.specs.Signatures.{SigsFit};
ghost use Rattle.mc_analysis.specs.code.Tests.{EachModesFit, ModeParts};

use mc_model::inst::{ModeDecl, Sig};

/// Whether the insts of all modes are there.
pub(crate) fn signatures_fit(count: u32, sigs: &[Sig]) -> bool
    ensures { IsTrue result ↔ SigsFit count sigs.now }
{
    each_fits(count, sigs)
}

/// Whether the insts of all modes of each predicate are there.
fn each_fits(count: u32, sigs: &[Sig]) -> bool
    ensures { IsTrue result ↔ EachModesFit count sigs.now }
{
    for sig in sigs {
        if !modes_fit(count, sig.modes.as_slice()) {
            return false;
        }
    }
    true
}

/// Whether the insts of a predicate's modes are there.
fn modes_fit(count: u32, modes: &[ModeDecl]) -> bool
    ensures { IsTrue result ↔ ModesFit count modes.now }
{
    for mode in modes {
        if !mode_fits(count, mode) {
            return false;
        }
    }
    true
}

/// Whether a mode has an initial and a final inst for each argument, which are there.
fn mode_fits(count: u32, mode: &ModeDecl) -> bool
    ensures { IsTrue result ↔ ModeFits count mode.now }
{
    has_parts(count, mode)
}

fn has_parts(count: u32, mode: &ModeDecl) -> bool
    ensures { IsTrue result ↔ ModeParts count mode.now }
{
    mode.first.len() == mode.last.len()
        && numbers_below(count, mode.first.as_slice())
        && numbers_below(count, mode.last.as_slice())
}

/// Whether all numbers are below another.
pub(crate) fn numbers_below(top: u32, numbers: &[u32]) -> bool
    ensures { IsTrue result ↔ NumbersBelow top numbers.now }
{
    for number in numbers {
        if *number >= top {
            return false;
        }
    }
    true
}
