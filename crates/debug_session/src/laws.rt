ghost use Rattle.debug_session.specs.OneThing.{SaysOneThing};

/// A line of a script says one thing: no text asks for two commands.
pub fn line_laws()
    ensures { SaysOneThing }
{}
