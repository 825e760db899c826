ghost use Rattle.mc_components.specs.Reached.{ReachedByWays};

/// What is reached is what there is a way to.
pub fn reached_by_ways()
    ensures { ReachedByWays }
{}
