//! The laws of what is read. Each is the contract of a function that does nothing.
ghost use Rattle.laws_sources.specs.ReadValues.{ClausesAreOfValues, GoalsAreOfValues, NumberedAreOfValues, ItemsHaveValues};
ghost use Rattle.laws_sources.specs.SourceValues.{FilesReadAreOfValues, ReadAreOfValues, NamedItemsHaveValues};

/// The numbers and texts of the clauses that a text is read as are values, and those of a query's goal.
pub fn read_are_of_values()
    ensures clauses { ClausesAreOfValues }
    ensures goals { GoalsAreOfValues }
{}

/// The numbers and texts of a clause or a goal stay values where its state variables are written out.
pub fn numbered_are_of_values()
    ensures { NumberedAreOfValues }
{}

/// What is typed of a program has values where its files and its goal have.
pub fn items_have_values()
    ensures { ItemsHaveValues }
{}

/// The numbers and texts of sources that are read are values, and what is typed of them has values once they are linked.
pub fn sources_have_values()
    ensures files { FilesReadAreOfValues }
    ensures read { ReadAreOfValues }
    ensures items { NamedItemsHaveValues }
{}
