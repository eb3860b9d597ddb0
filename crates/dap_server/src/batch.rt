// The frames of an answer.
ghost use Rattle.std.specs.Prelude.{ℕ, ◌≡◌, List, ◌++◌, length, IfOk, OnOk};
ghost use Rattle.dap_frames.specs.Frames.{framed};
ghost use Rattle.dap_messages.specs.Json.{IsJsonOf};
ghost use Rattle.dap_server.specs.Sent.{AreJson, IsBatch, IsWhole, frames};

use dap_frames::write_header;
use dap_messages::{Answer, Message, Request, messages_of, write_message};
use std::alloc::{AllocError, Global};

/// Frames that are to be sent.
#[derive(Drop)]
pub(crate) struct Batch {
    pub(crate) bytes: Vec<u8>,
    /// how many they are
    pub(crate) count: u64,
}

/// The frames of the messages of an answer, the first of which has the number `next`. It is an error if there is no
/// memory.
pub(crate) fn batch_of(
    alloc: Global,
    request: &Request,
    answer: Answer,
    next: u64,
) -> Result<Batch, AllocError>
    ensures { IfOk result (λ batch. (bodies : List (List ℕ))
        × IsBatch bodies batch × IsWhole request.now answer next bodies) }
{
    match messages_of(alloc, request, answer, next) {
        Ok(messages) => framed_all(alloc, messages),
        Err(AllocError) => Err(AllocError),
    }
}

/// The frames of these messages.
fn framed_all(alloc: Global, messages: Vec<Message>) -> Result<Batch, AllocError>
    ensures { IfOk result (λ batch. (bodies : List (List ℕ))
        × AreJson messages.items bodies × IsBatch bodies batch) }
{
    let count = count_of(messages.as_slice());
    let mut bytes = Vec::new(alloc);
    match add_frames(alloc, messages, &mut bytes) {
        Ok(()) => Ok(Batch { bytes, count }),
        Err(AllocError) => Err(AllocError),
    }
}

/// How many messages there are.
fn count_of(messages: &[Message]) -> u64
    ensures { result ≡ length messages.now }
{
    messages.len() as u64
}

/// Adds the frames of these messages. Without memory some of them may be there.
fn add_frames(alloc: Global, messages: Vec<Message>, bytes: &mut Vec<u8>) -> Result<(), AllocError>
    ensures { OnOk result ((bodies : List (List ℕ))
        × AreJson messages.items bodies × (bytes.new.items ≡ bytes.old.items ++ frames bodies)) }
{
    for message in messages {
        add_frame(alloc, message, bytes)?;
    }
    Ok(())
}

/// Adds the frame of this message.
fn add_frame(alloc: Global, message: Message, bytes: &mut Vec<u8>) -> Result<(), AllocError>
    ensures { OnOk result ((body : List ℕ)
        × IsJsonOf message body × (bytes.new.items ≡ bytes.old.items ++ framed body)) }
{
    match write_message(alloc, message) {
        Ok(body) => add_framed(body.as_slice(), bytes),
        Err(AllocError) => Err(AllocError),
    }
}

/// Adds the frame of this body.
pub(crate) fn add_framed(body: &[u8], bytes: &mut Vec<u8>) -> Result<(), AllocError>
    ensures { OnOk result (bytes.new.items ≡ bytes.old.items ++ framed body.now) }
{
    write_header(bytes, body.len())?;
    bytes.extend_from_slice(body)
}
