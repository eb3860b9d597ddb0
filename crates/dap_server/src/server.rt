// A session over a reader and a writer.
ghost use Rattle.std.specs.Prelude.{ℕ, ◌≡◌, ◌⊎◌, List, [], ◌∷◌, IfErr, IfOk, OnOk, true, false};
ghost use Rattle.std.specs.Io.KnownBytes.{IsAtEnd};
ghost use Rattle.dap_server.specs.Heard.{large, unread, words_for};
ghost use Rattle.dap_server.specs.Sent.{IsBegun, Sends, frames};
ghost use Rattle.dap_server.specs.Session.{Exchange, Hears, HearsLast, Serves, ServesUpTo};
ghost use Rattle.dap_server.specs.Short.{short_bodies, short_line};
ghost use Rattle.dap_server.specs.declared.input.Next as comes;
ghost use Rattle.dap_server.specs.internal.Reading.{IsNext, held};
ghost use Rattle.dap_server.specs.internal.Serving.{BreaksFrom, ServesFrom, StopsFrom};

use crate::adapter::Adapter;
use crate::batch::batch_of;
use crate::fault::Fault;
use crate::gist::{Gist, gist_of};
use crate::input::{Input, Next};
use crate::output::send;
use crate::room::Room;
use dap_messages::{Request, Unread, read_request};
use std::alloc::{AllocError, Global};
use std::io::{Read, Write};

/// Lets the adapter answer the requests of the reader, and writes the messages, until it is over or the reader is at
/// its end.
///
/// Each message is out and flushed before the reader is asked for more. A message that is no request is passed over,
/// which is told by an `output`. Where there is no memory for an answer, a short one says so, and the session goes on.
///
/// # Errors
///
/// All that is sent for the messages before is out then. Of the answer to one message more a beginning may be out, where
/// the writer failed; else nothing of it is.
///
/// - `NoHeader` where what is read is no header of a message;
/// - `ReadFailed` where the reader fails, or ends inside a message;
/// - `WriteFailed` where the writer fails;
/// - `Memory` where there is no memory to read a message.
pub fn serve<R: Read, W: Write, C, A: Adapter<C>>(
    alloc: Global,
    reader: &mut R,
    writer: &mut W,
    context: &C,
    adapter: &mut A,
) -> Result<(), Fault>
    ensures serves { OnOk result ((after : ℕ)
        × Serves (A.answers context.now) A.over adapter.old 1 adapter.new after (R.remaining reader.old)
        (R.remaining reader.new) (W.contents writer.old) (W.contents writer.new)) }
    ensures ends { OnOk result ((A.over adapter.new ≡ true) ⊎ IsAtEnd (R.remaining reader.new)) }
    ensures fails { IfErr result (λ why.
        ServesUpTo (A.answers context.now) A.over adapter.old 1 adapter.new why (R.remaining reader.old)
        (R.remaining reader.new) (W.contents writer.old) (W.contents writer.new)) }
{
    match Server::new(alloc) {
        Ok(mut server) => server.serve_all(reader, writer, context, adapter),
        Err(AllocError) => Err(Fault::Memory),
    }
}

/// What is read, and the number of the message that is sent next.
#[derive(Drop)]
struct Server {
    alloc: Global,
    input: Input,
    room: Room,
    next: u64,
}

impl Server {
    /// Nothing has been read. It is an error if there is no memory.
    fn new(alloc: Global) -> Result<Server, AllocError>
        ensures next { IfOk result (λ server. server.next ≡ 1) }
        ensures held { IfOk result (λ server. held server.input ≡ []) }
    {
        let room = Room::new(alloc)?;
        Ok(Server {
            alloc,
            input: Input::new(alloc),
            room,
            next: 1,
        })
    }

    /// Answers the messages of the reader, one after another.
    fn serve_all<R: Read, W: Write, C, A: Adapter<C>>(
        &mut self,
        reader: &mut R,
        writer: &mut W,
        context: &C,
        adapter: &mut A,
    ) -> Result<(), Fault>
        ensures serves { OnOk result (ServesFrom (A.answers context.now) A.over
            adapter.old self.old.next adapter.new self.new.next
            (held self.old.input) (held self.new.input) (R.remaining reader.old) (R.remaining reader.new)
            (W.contents writer.old) (W.contents writer.new)) }
        ensures ends { OnOk result ((A.over adapter.new ≡ true)
            ⊎ (IsAtEnd (R.remaining reader.new) × (held self.new.input ≡ []))) }
        ensures fails { IfErr result (λ why. StopsFrom (A.answers context.now) A.over
            adapter.old self.old.next adapter.new why (held self.old.input)
            (R.remaining reader.old) (R.remaining reader.new) (W.contents writer.old) (W.contents writer.new)) }
    {
        for turn in 0..u64::MAX {
            if adapter.is_over() {
                return Ok(());
            }
            match self.serve_next(reader, writer, context, adapter) {
                Ok(true) => {}
                Ok(false) => return Ok(()),
                Err(fault) => return Err(fault),
            }
        }
        // No session has so many messages.
        Err(Fault::Memory)
    }

    /// Answers the next message, and tells whether there was one.
    fn serve_next<R: Read, W: Write, C, A: Adapter<C>>(
        &mut self,
        reader: &mut R,
        writer: &mut W,
        context: &C,
        adapter: &mut A,
    ) -> Result<bool, Fault>
        requires { A.over adapter.old ≡ false }
        ensures serves { IfOk result (λ more.
            ServesFrom (A.answers context.now) A.over adapter.old self.old.next adapter.new self.new.next
            (held self.old.input) (held self.new.input) (R.remaining reader.old) (R.remaining reader.new)
            (W.contents writer.old) (W.contents writer.new)) }
        ensures ends { IfOk result (λ more. more ≡ false
            → IsAtEnd (R.remaining reader.new) × (held self.new.input ≡ [])) }
        ensures fails { IfErr result (λ why. BreaksFrom (A.answers context.now) A.over
            adapter.old self.old.next adapter.new why (held self.old.input)
            (R.remaining reader.old) (R.remaining reader.new) (W.contents writer.old) (W.contents writer.new)) }
    {
        match self.input.next(reader) {
            Ok(next) => self.serve_message(writer, context, adapter, next),
            Err(fault) => Err(fault),
        }
    }

    /// Answers a message, and tells whether there was one.
    fn serve_message<W: Write, C, A: Adapter<C>>(
        &mut self,
        writer: &mut W,
        context: &C,
        adapter: &mut A,
        next: Next,
    ) -> Result<bool, Fault>
        requires { A.over adapter.old ≡ false }
        ensures serves { IfOk result (λ more. (bytes : List ℕ) → IsNext next self.old.input bytes →
            Hears (A.answers context.now) A.over adapter.old self.old.next adapter.new self.new.next bytes
            (held self.old.input) (W.contents writer.old) (W.contents writer.new)) }
        ensures ends { IfOk result (λ more. more ≡ false → next ≡ comes.Next.End) }
        ensures fails { IfErr result (λ why. (bytes : List ℕ) → IsNext next self.old.input bytes →
            HearsLast (A.answers context.now) A.over adapter.old self.old.next adapter.new why bytes
            (W.contents writer.old) (W.contents writer.new)) }
        ensures input { self.new.input ≡ self.old.input }
    {
        match next {
            Next::Body(from, to) => self.hear(writer, context, adapter, from, to),
            Next::Large => self.pass_over(writer),
            Next::End => Ok(false),
        }
    }

    /// Tells that a message was passed over, and that there was one.
    fn pass_over<W: Write>(&mut self, writer: &mut W) -> Result<bool, Fault>
        ensures tells { IfOk result (λ more. Sends (short_line (words_for large) self.old.next ∷ [])
            (W.contents writer.old) (W.contents writer.new) self.old.next self.new.next) }
        ensures on { IfOk result (λ more. more ≡ true) }
        ensures fails { IfErr result (λ why. IsBegun why (frames (short_line (words_for large) self.old.next ∷ []))
            (W.contents writer.old) (W.contents writer.new)) }
        ensures input { self.new.input ≡ self.old.input }
    {
        match self.tell(writer, "a message of more than 4 MB is passed over") {
            Ok(()) => Ok(true),
            Err(fault) => Err(fault),
        }
    }

    /// Answers the message that was read between these indexes, and tells that there was one.
    fn hear<W: Write, C, A: Adapter<C>>(
        &mut self,
        writer: &mut W,
        context: &C,
        adapter: &mut A,
        from: usize,
        to: usize,
    ) -> Result<bool, Fault>
        requires { A.over adapter.old ≡ false }
        ensures serves { IfOk result (λ more. (bytes : List ℕ) → IsNext (comes.Next.Body from to) self.old.input bytes →
            Hears (A.answers context.now) A.over adapter.old self.old.next adapter.new self.new.next bytes
            (held self.old.input) (W.contents writer.old) (W.contents writer.new)) }
        ensures on { IfOk result (λ more. more ≡ true) }
        ensures fails { IfErr result (λ why. (bytes : List ℕ) → IsNext (comes.Next.Body from to) self.old.input bytes →
            HearsLast (A.answers context.now) A.over adapter.old self.old.next adapter.new why bytes
            (W.contents writer.old) (W.contents writer.new)) }
        ensures input { self.new.input ≡ self.old.input }
    {
        match self.take(writer, context, adapter, from, to) {
            Ok(()) => Ok(true),
            Err(fault) => Err(fault),
        }
    }

    /// Answers the message that was read between these indexes.
    fn take<W: Write, C, A: Adapter<C>>(
        &mut self,
        writer: &mut W,
        context: &C,
        adapter: &mut A,
        from: usize,
        to: usize,
    ) -> Result<(), Fault>
        requires { A.over adapter.old ≡ false }
        ensures serves { OnOk result ((bytes : List ℕ) → IsNext (comes.Next.Body from to) self.old.input bytes →
            Hears (A.answers context.now) A.over adapter.old self.old.next adapter.new self.new.next bytes
            (held self.old.input) (W.contents writer.old) (W.contents writer.new)) }
        ensures fails { IfErr result (λ why. (bytes : List ℕ) → IsNext (comes.Next.Body from to) self.old.input bytes →
            HearsLast (A.answers context.now) A.over adapter.old self.old.next adapter.new why bytes
            (W.contents writer.old) (W.contents writer.new)) }
        ensures input { self.new.input ≡ self.old.input }
    {
        match read_request(self.alloc, self.input.body(from, to)) {
            Ok(request) => self.answer(writer, context, adapter, &request),
            Err(unread) => self.tell(writer, words_of(unread)),
        }
    }

    /// Answers a request.
    fn answer<W: Write, C, A: Adapter<C>>(
        &mut self,
        writer: &mut W,
        context: &C,
        adapter: &mut A,
        request: &Request,
    ) -> Result<(), Fault>
        ensures answers { OnOk result ((sent : List (List ℕ))
            × Exchange (A.answers context.now) adapter.old request.now self.old.next sent adapter.new
            × Sends sent (W.contents writer.old) (W.contents writer.new) self.old.next self.new.next) }
        ensures fails { IfErr result (λ why. (sent : List (List ℕ))
            × Exchange (A.answers context.now) adapter.old request.now self.old.next sent adapter.new
            × IsBegun why (frames sent) (W.contents writer.old) (W.contents writer.new)) }
        ensures input { self.new.input ≡ self.old.input }
    {
        let answer = adapter.answer(context, request);
        let gist = gist_of(&answer);
        match batch_of(self.alloc, request, answer, self.next) {
            Ok(batch) => send(writer, &batch, &mut self.next),
            Err(AllocError) => self.answer_short(writer, request, gist),
        }
    }

    /// Answers a request for whose answer there is no memory.
    fn answer_short<W: Write>(
        &mut self,
        writer: &mut W,
        request: &Request,
        gist: Gist,
    ) -> Result<(), Fault>
        ensures sends { OnOk result
            (Sends (short_bodies request.now gist self.old.next) (W.contents writer.old) (W.contents writer.new)
            self.old.next self.new.next) }
        ensures fails { IfErr result (λ why. IsBegun why (frames (short_bodies request.now gist self.old.next))
            (W.contents writer.old) (W.contents writer.new)) }
        ensures input { self.new.input ≡ self.old.input }
    {
        match self.room.answer(request, gist, self.next) {
            Ok(()) => send(writer, &self.room.batch, &mut self.next),
            Err(AllocError) => Err(Fault::Memory),
        }
    }

    /// Tells a line.
    fn tell<W: Write>(&mut self, writer: &mut W, line: &str) -> Result<(), Fault>
        ensures sends { OnOk result
            (Sends (short_line line.now self.old.next ∷ []) (W.contents writer.old) (W.contents writer.new)
            self.old.next self.new.next) }
        ensures fails { IfErr result (λ why. IsBegun why (frames (short_line line.now self.old.next ∷ []))
            (W.contents writer.old) (W.contents writer.new)) }
        ensures input { self.new.input ≡ self.old.input }
    {
        match self.room.tell(line, self.next) {
            Ok(()) => send(writer, &self.room.batch, &mut self.next),
            Err(AllocError) => Err(Fault::Memory),
        }
    }
}

/// Why a message is passed over.
fn words_of(why: Unread) -> &'static str
    ensures { result.now ≡ words_for (unread why) }
{
    match why {
        Unread::Memory => "there is no memory to read a message, which is passed over",
        Unread::NoJson => "a message that is no JSON of 64 levels at most is passed over",
        Unread::NoRequest => "a message that is no request is passed over",
    }
}
