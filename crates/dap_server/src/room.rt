// Messages for where there is no memory: they are written into room that was set aside before.
ghost use Rattle.std.specs.Prelude.{◌≡◌, ◌+◌, [], ◌∷◌, IfOk, OnOk};
ghost use Rattle.dap_server.specs.Sent.{AddsDue, IsBatch, IsBehind};
ghost use Rattle.dap_server.specs.Short as model;

use crate::batch::{Batch, add_framed};
use crate::gist::Gist;
use crate::short::{write_event, write_line, write_response};
use dap_messages::{Request, Told};
use std::alloc::{AllocError, Global};

/// The room for a message, which is at most half as long.
const BODY_ROOM: usize = 1_024;

/// The room for the frames of two messages.
const FRAMES_ROOM: usize = 4_096;

/// Short messages, and their frames. It is an error where they find no room, which does not come: no message is that
/// long.
#[derive(Drop)]
pub(crate) struct Room {
    body: Vec<u8>,
    /// the frames that were made last
    pub(crate) batch: Batch,
}

impl Room {
    /// Sets the room aside. It is an error if there is no memory.
    pub(crate) fn new(alloc: Global) -> Result<Room, AllocError> {
        let body = Vec::with_capacity(alloc, BODY_ROOM)?;
        let bytes = Vec::with_capacity(alloc, FRAMES_ROOM)?;
        Ok(Room {
            body,
            batch: Batch { bytes, count: 0 },
        })
    }

    /// Makes the frames of the messages that answer a request for whose answer there is no memory, numbered from `seq`
    /// on.
    pub(crate) fn answer(
        &mut self,
        request: &Request,
        gist: Gist,
        seq: u64,
    ) -> Result<(), AllocError>
        ensures { OnOk result (IsBatch (model.short_bodies request.now gist seq) self.new.batch) }
    {
        match self.respond(request, gist, seq) {
            Ok(()) => self.add_due(request, due_of(gist), seq),
            Err(AllocError) => Err(AllocError),
        }
    }

    /// Makes the frame of an event that tells a line on standard error.
    pub(crate) fn tell(&mut self, line: &str, seq: u64) -> Result<(), AllocError>
        ensures { OnOk result (IsBatch (model.short_line line.now seq ∷ []) self.new.batch) }
    {
        match write_line(&mut self.body, line, seq) {
            Ok(()) => self.frame_first(),
            Err(AllocError) => Err(AllocError),
        }
    }

    /// Makes the frame of the response to the request.
    fn respond(&mut self, request: &Request, gist: Gist, seq: u64) -> Result<(), AllocError>
        ensures { OnOk result (IsBatch (model.short_response request.now gist seq ∷ []) self.new.batch) }
    {
        match write_response(&mut self.body, request, gist, seq) {
            Ok(()) => self.frame_first(),
            Err(AllocError) => Err(AllocError),
        }
    }

    /// Adds the event behind the response of this number, if one has to come.
    fn add_due(&mut self, request: &Request, due: Option<Told>, seq: u64) -> Result<(), AllocError>
        ensures { OnOk result (AddsDue self.old.batch (model.due_bodies request.now due (seq + 1)) self.new.batch) }
    {
        match due {
            Some(told) => self.add_event(request, told, seq),
            None => Ok(()),
        }
    }

    /// Adds the event behind the response of this number.
    fn add_event(&mut self, request: &Request, told: Told, seq: u64) -> Result<(), AllocError>
        ensures { OnOk result (IsBehind self.old.batch (model.short_event request.now told (seq + 1)) self.new.batch) }
    {
        match following(seq) {
            Ok(next) => self.add_numbered(request, told, next),
            Err(AllocError) => Err(AllocError),
        }
    }

    /// Adds the event of this number.
    fn add_numbered(&mut self, request: &Request, told: Told, seq: u64) -> Result<(), AllocError>
        ensures { OnOk result (IsBehind self.old.batch (model.short_event request.now told seq) self.new.batch) }
    {
        match write_event(&mut self.body, request, told, seq) {
            Ok(()) => self.frame_second(),
            Err(AllocError) => Err(AllocError),
        }
    }

    /// Makes the frame of the message, in place of what was there.
    fn frame_first(&mut self) -> Result<(), AllocError>
        ensures { OnOk result (IsBatch (self.old.body.items ∷ []) self.new.batch) }
    {
        self.batch.bytes.clear();
        self.batch.count = 1;
        add_framed(self.body.as_slice(), &mut self.batch.bytes)
    }

    /// Adds the frame of the message behind the one that is there.
    fn frame_second(&mut self) -> Result<(), AllocError>
        ensures { OnOk result (IsBehind self.old.batch self.old.body.items self.new.batch) }
    {
        self.batch.count = 2;
        add_framed(self.body.as_slice(), &mut self.batch.bytes)
    }
}

/// The event that has to come, if one has.
fn due_of(gist: Gist) -> Option<Told>
    ensures { result ≡ model.due_of gist }
{
    match gist {
        Gist::Due(told) => Some(told),
        _ => None,
    }
}

/// The number behind this.
fn following(seq: u64) -> Result<u64, AllocError>
    ensures { IfOk result (λ next. next ≡ seq + 1) }
{
    match seq.checked_add(1) {
        Some(next) => Ok(next),
        None => Err(AllocError),
    }
}
