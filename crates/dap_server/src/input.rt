// The messages of a reader, one after another.
ghost use Rattle.std.specs.Prelude.{ℕ, ◌≡◌, ◌≢◌, ◌≤◌, ◌<◌, List, [], ◌++◌, ◌+◌, IfOk, OnOk, drop, false, length, slice_range, take};
ghost use Rattle.std.specs.Io.KnownBytes.{Consumes, IsAtEnd};
ghost use Rattle.dap_frames.specs.Unframing.{Unframes};
ghost use Rattle.dap_frames.specs.declared.body.Unframed.{Unframed as stands};
ghost use Rattle.dap_server.specs.internal.Reading.{IsNext, held};
ghost use Rattle.dap_server.specs.internal.Serving.{ReadsSome};
ghost use Rattle.dap_server.specs.declared.input.Next as comes;

use crate::Fault;
use dap_frames::{Unframed, unframe};
use std::alloc::Global;
use std::io::{ErrorKind, Read};

/// How many bytes are asked for at a time.
const CHUNK: usize = 4_096;

/// What has been read, and how far it was looked at.
#[derive(Drop)]
pub(crate) struct Input {
    bytes: Vec<u8>,
    /// where what was not looked at begins
    start: usize,
}

/// What comes next.
#[derive(Clone, Copy, Debug, PartialEq, Eq)]
pub(crate) enum Next {
    /// a body, from the first index to before the second
    Body(usize, usize),
    /// a body that is larger than it may be; it was passed over
    Large,
    /// nothing
    End,
}

impl Input {
    /// Nothing has been read.
    pub(crate) fn new(alloc: Global) -> Input
        ensures { held result ≡ [] }
    {
        Input {
            bytes: Vec::new(alloc),
            start: 0,
        }
    }

    /// The next message.
    pub(crate) fn next<R: Read>(&mut self, reader: &mut R) -> Result<Next, Fault>
        ensures next { IfOk result (λ next. (came : List ℕ)
            × Consumes (R.remaining reader.old) (R.remaining reader.new) came
            × IsNext next self.new (held self.old ++ came)) }
        ensures ends { IfOk result (λ next. next ≡ comes.Next.End → IsAtEnd (R.remaining reader.new)) }
        ensures some { ReadsSome (R.remaining reader.old) (R.remaining reader.new) }
    {
        for _ in 0..u64::MAX {
            match self.at_hand() {
                Unframed::Whole(from, to) => return Ok(self.whole(from, to)),
                Unframed::Large(from, length) => return self.large(reader, from, length),
                Unframed::Broken => return Err(Fault::NoHeader),
                Unframed::Begun => {}
            }
            if !self.read_more(reader)? {
                return self.ended();
            }
        }
        Err(Fault::ReadFailed)
    }

    /// The bytes between two indexes; none where they are not there.
    pub(crate) fn body(&self, from: usize, to: usize) -> &[u8]
        ensures { from ≤ to → to ≤ length self.now.bytes.items → result.now ≡ slice_range self.now.bytes.items from to }
    {
        if from <= to && to <= self.bytes.len() {
            &self.bytes[from..to]
        } else {
            &[]
        }
    }

    /// What was read and not looked at.
    fn rest(&self) -> &[u8]
        ensures { result.now ≡ held self.now }
    {
        if self.start < self.bytes.len() {
            &self.bytes[self.start..]
        } else {
            &[]
        }
    }

    /// What stands first in that.
    fn at_hand(&self) -> Unframed
        ensures { Unframes (held self.now) result }
    {
        unframe(self.rest())
    }

    /// Passes over so many bytes of it.
    fn pass(&mut self, count: usize)
        requires { count ≤ length (held self.old) }
        ensures held { held self.new ≡ drop count (held self.old) }
        ensures start { self.new.start ≡ self.old.start + count }
        ensures bytes { self.new.bytes.items ≡ self.old.bytes.items }
    {
        self.start += count;
    }

    /// Takes the body that is there whole, between these indexes of what was not looked at.
    fn whole(&mut self, from: usize, to: usize) -> Next
        requires whole { Unframes (held self.old) (stands.Whole from to) }
        requires rises { from ≤ to }
        ensures next { IsNext result self.new (held self.old) }
        ensures more { result ≢ comes.Next.End }
    {
        self.pass(to);
        Next::Body(self.start - (to - from), self.start)
    }

    /// Passes over a body of so many bytes, which is larger than it may be, and begins at this index of what was not
    /// looked at.
    fn large<R: Read>(&mut self, reader: &mut R, from: usize, length: u64) -> Result<Next, Fault>
        requires { Unframes (held self.old) (stands.Large from length) }
        ensures next { IfOk result (λ next. (came : List ℕ)
            × Consumes (R.remaining reader.old) (R.remaining reader.new) came
            × IsNext next self.new (held self.old ++ came)) }
        ensures more { IfOk result (λ next. next ≢ comes.Next.End) }
        ensures some { ReadsSome (R.remaining reader.old) (R.remaining reader.new) }
    {
        self.pass(from);
        match self.pass_over(reader, length) {
            Ok(()) => Ok(Next::Large),
            Err(fault) => Err(fault),
        }
    }

    /// Passes over so many bytes, and reads them as far as they are not there.
    fn pass_over<R: Read>(&mut self, reader: &mut R, count: u64) -> Result<(), Fault>
        ensures passes { OnOk result ((came : List ℕ) × (passed : List ℕ)
            × Consumes (R.remaining reader.old) (R.remaining reader.new) came
            × (held self.old ++ came ≡ passed ++ held self.new) × (length passed ≡ count)) }
        ensures some { ReadsSome (R.remaining reader.old) (R.remaining reader.new) }
    {
        let mut left = count;
        for _ in 0..u64::MAX {
            let there = self.rest().len() as u64;
            if left <= there {
                self.pass(left as usize);
                return Ok(());
            }
            left -= there;
            self.pass(there as usize);
            if !self.read_more(reader)? {
                return Err(Fault::ReadFailed);
            }
        }
        Err(Fault::ReadFailed)
    }

    /// Reads some bytes more; whether there were any.
    fn read_more<R: Read>(&mut self, reader: &mut R) -> Result<bool, Fault>
        ensures reads { IfOk result (λ more. (came : List ℕ)
            × Consumes (R.remaining reader.old) (R.remaining reader.new) came
            × (held self.new ≡ held self.old ++ came)) }
        ensures ends { IfOk result (λ more. more ≡ false → IsAtEnd (R.remaining reader.new)) }
        ensures some { ReadsSome (R.remaining reader.old) (R.remaining reader.new) }
    {
        self.drop_looked_at();
        let mut chunk = [0; CHUNK];
        match read_some(reader, &mut chunk) {
            Ok(count) => self.keep(&chunk[..count]),
            Err(fault) => Err(fault),
        }
    }

    /// Keeps bytes that were read, behind the others; whether there were any.
    fn keep(&mut self, read: &[u8]) -> Result<bool, Fault>
        requires { self.old.start ≡ 0 }
        ensures held { OnOk result (held self.new ≡ held self.old ++ read.now) }
        ensures any { IfOk result (λ more. more ≡ false → read.now ≡ []) }
    {
        match self.bytes.extend_from_slice(read) {
            Ok(()) => Ok(!read.is_empty()),
            Err(_) => Err(Fault::Memory),
        }
    }

    /// Takes what was looked at off the front.
    fn drop_looked_at(&mut self)
        ensures held { held self.new ≡ held self.old }
        ensures start { self.new.start ≡ 0 }
    {
        if self.start >= self.bytes.len() {
            self.bytes.clear();
        } else {
            let left = self.bytes.len() - self.start;
            self.bytes.as_mut_slice().rotate_left(self.start);
            self.bytes.truncate(left);
        }
        self.start = 0;
    }

    /// What comes where the reader is at its end: nothing, unless it ended inside a message.
    fn ended(&self) -> Result<Next, Fault>
        ensures { IfOk result (λ next. (next ≡ comes.Next.End) × (held self.now ≡ [])) }
    {
        if self.rest().is_empty() {
            Ok(Next::End)
        } else {
            Err(Fault::ReadFailed)
        }
    }
}

/// Reads some bytes; how many they are.
fn read_some<R: Read>(reader: &mut R, chunk: &mut [u8]) -> Result<usize, Fault>
    requires { 0 < length chunk.old }
    ensures within { IfOk result (λ count. count ≤ length chunk.new) }
    ensures reads { IfOk result (λ count.
        Consumes (R.remaining reader.old) (R.remaining reader.new) (take count chunk.new)) }
    ensures ends { IfOk result (λ count. count ≡ 0 → IsAtEnd (R.remaining reader.new)) }
    ensures some { ReadsSome (R.remaining reader.old) (R.remaining reader.new) }
{
    for _ in 0..u64::MAX {
        match reader.read(chunk) {
            Ok(count) => return Ok(count),
            Err(error) if error.kind() == ErrorKind::Interrupted => {}
            Err(_) => return Err(Fault::ReadFailed),
        }
    }
    Err(Fault::ReadFailed)
}
