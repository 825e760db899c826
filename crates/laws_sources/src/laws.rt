//! The laws of what files that are linked declare. Each is the contract of a function that does nothing.
ghost use Rattle.laws_sources.specs.WellWritten.{ItemsHaveForm, GivenAreLinked, WellWritten, LibraryStaysLinked, LibraryMatters};
ghost use Rattle.laws_sources.specs.Tested.{LinkedByTest};
ghost use Rattle.laws_sources.specs.Sources.{ReadFilesHaveForm, SourcesAreWellWritten};

/// What is read of a text has the form of its declarations.
pub fn items_have_form()
    ensures { ItemsHaveForm }
{}

/// Where no rule of linking is broken, each given module is the one that its name means, and each name that its items use
/// means something there.
pub fn given_are_linked()
    ensures { GivenAreLinked }
{}

/// What files have that have their form and are linked is well written.
pub fn well_written()
    ensures { WellWritten }
{}

/// The library's modules are linked behind any given files, where they are linked by themselves.
pub fn library_stays_linked()
    ensures { LibraryStaysLinked }
{}

/// The library's modules are linked, behind given files or by themselves, where they pass the test.
pub fn linked_by_test()
    ensures { LinkedByTest }
{}

/// Files that break no rule of linking need not be well written where the library isn't linked.
pub fn library_matters()
    ensures { LibraryMatters }
{}

/// What sources declare that are read and linked, with the library behind them, is well written.
pub fn sources_are_well_written()
    ensures forms { ReadFilesHaveForm }
    ensures sources { SourcesAreWellWritten }
{}
