ghost use Rattle.shell.specs.Laws.{LinesAreCommands};

use crate::Host;
use shell_desk::desk_laws;

/// Whatever lines come, the desk is then what a list of commands of sessions leaves. So each law on lists of commands
/// holds after any session, whatever the files of this host hold.
pub fn session_laws<H: Host>(host: &H)
    ensures { LinesAreCommands (H.files host.now) }
{
    let _host = host;
    desk_laws();
}
