// That a past is told with the values that were read and the steps that wrote them, the contracts of functions that do
// nothing.
ghost use Rattle.past.specs.Laws.{ToldAsRead, WritersTold};

/// A variable that a told event read had the value that its line tells: what wrote it last is told before.
pub fn values_are_told_as_read()
    ensures { ToldAsRead }
{}

/// The step that a line tells beside such a value is the last before it that wrote the variable, and has a line before.
/// Where no step is told, none before it wrote the variable, and the value is 0.
pub fn writers_are_told()
    ensures { WritersTold }
{}
