ghost use Rattle.mc_flat_code.specs.SourceRuns.{GoalsRunAsSource, BodiesRunAsSource, CallsRunAsSource};

/// The code does what the goals, the bodies and the procedures do that it stands for.
pub fn code_runs_as_source()
    ensures goals { GoalsRunAsSource }
    ensures bodies { BodiesRunAsSource }
    ensures calls { CallsRunAsSource }
{}
