ghost use Rattle.shell_desk.specs.Laws.{EachDeedIsCommands};

/// Whatever is done at a desk, it is then what a list of commands of the session leaves. So each law on lists of
/// commands holds of it.
pub fn desk_laws()
    ensures { EachDeedIsCommands }
{}
