ghost use Rattle.std.specs.Prelude.{◌≡◌, ◌<◌, OnOk};
ghost use Rattle.runs.specs.Live.{events};
ghost use Rattle.source_view.specs.View.{IsView};
ghost use Rattle.trace_file.specs.TraceText.{IsTrace};
ghost use Rattle.locked_execution.specs.AtDesk.{breaks_of, new_desk};
ghost use Rattle.locked_execution.specs.Performs.{Answers};

use locked_execution::{Command, Desk, Machine, Reply};
use sharing_check::Checked;
use source_view::view;
use std::alloc::{AllocError, Global};
use std::marker::Model;
use trace_file::write_trace;

/// A desk, the session whose lines come, and the source that a view shows.
#[derive(Drop)]
pub(crate) struct ScriptState<'a> {
    desk: Desk,
    session: u32,
    source: &'a [u8],
}

impl<'a> Model for ScriptState<'a> {
    ghost use Rattle.std.specs.Prelude.{◌<◌};
    ghost use Rattle.std.specs.Coded.{codes};
    ghost use Rattle.system.specs.contracts.system.System as whole;
    ghost use Rattle.debug_session.specs.AtLine.{AtLine};

    ghost Value = { AtLine };

    ghost coded = { Prim.hlevel (codes, whole.the_row.coded) };

    ghost view = { λ script_state.
        record { desk = script_state.desk; session = script_state.session; source = script_state.source.now } };

    ghost invariant = { λ script_state. script_state.session < 16 };
}

impl<'a> ScriptState<'a> {
    /// Session 0, on the machine of this source.
    pub(crate) fn new(machine: Machine, source: &'a [u8]) -> ScriptState<'a>
        ensures { result ≡ record { desk = new_desk machine; session = 0; source = source.now } }
    {
        ScriptState {
            desk: Desk::new(machine),
            session: 0,
            source,
        }
    }

    /// The system.
    pub(crate) fn checked(&self) -> &Checked
        ensures { result.now ≡ self.now.desk.machine.checked }
    {
        self.desk.machine().checked()
    }

    /// What the desk answers to the command of the session.
    pub(crate) fn ask(&mut self, command: &Command) -> Reply
        ensures answers { Answers self.old.desk self.old.session command.now result self.new.desk }
        ensures session { self.new.session ≡ self.old.session }
        ensures source { self.new.source ≡ self.old.source }
        ensures system { self.new.desk.machine.checked ≡ self.old.desk.machine.checked }
    {
        self.desk.perform(self.session, command)
    }

    /// Makes this the session whose lines come.
    pub(crate) fn turn_to(&mut self, session: u32)
        requires { session < 16 }
        ensures { self.new ≡ record { desk = self.old.desk; session = session; source = self.old.source } }
    {
        self.session = session;
    }

    /// Puts the view that the session has of the source in place of what `bytes` has.
    pub(crate) fn view(&self, alloc: Global, bytes: &mut Vec<u8>) -> Result<(), AllocError>
        ensures { OnOk result
            (IsView self.now.desk.machine (breaks_of self.now.desk self.now.session) self.now.source bytes.new.items) }
    {
        let breaks = self.desk.breaks(self.session);
        *bytes = view(alloc, self.desk.machine(), breaks, self.source)?;
        Ok(())
    }

    /// Puts the trace of the live events in place of what `bytes` has.
    pub(crate) fn trace(&self, alloc: Global, bytes: &mut Vec<u8>) -> Result<(), AllocError>
        ensures { OnOk result (IsTrace (events self.now.desk.machine.live) bytes.new.items) }
    {
        *bytes = write_trace(alloc, self.desk.machine())?;
        Ok(())
    }
}
