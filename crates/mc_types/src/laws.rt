ghost use Rattle.mc_types.specs.Solved.{FoundedIsSolved};

/// A graph in which no type has itself in it stands for exactly one type at each place, for each choice of its free
/// cells.
pub fn founded_is_solved()
    ensures { FoundedIsSolved }
{}
