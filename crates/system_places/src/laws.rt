// Laws of places, each the contract of a function that does nothing.
ghost use Rattle.system_places.specs.Laws.{LinesAreBegun};

/// A command begins on the line of a place.
pub fn line_law()
    ensures { LinesAreBegun }
{}
