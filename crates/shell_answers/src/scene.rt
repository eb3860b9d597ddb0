use machine::Machine;
use plain_words::Elements;
use shell_desk::Bench;
use std::alloc::Global;
use system::System;
use value::Value;

/// What is told of: a bench, the elements of the source's enumerations, and the source.
#[derive(Clone, Copy)]
pub struct Scene<'a> {
    pub alloc: Global,
    pub bench: &'a Bench,
    pub elements: &'a Elements<'a>,
    pub source: &'a [u8],
}

impl<'a> Scene<'a> {
    /// The machine at the bench.
    pub(crate) fn machine(&self) -> &'a Machine {
        self.bench.desk().machine()
    }

    /// Whether the value is an element of the channel's type that has a name.
    pub(crate) fn names(&self, channel: u32, value: Value) -> bool {
        let element = self
            .elements
            .of_channel(self.system(), channel, value.bits());
        element.is_some()
    }

    /// The system.
    pub(crate) fn system(&self) -> &'a System {
        self.bench.desk().machine().checked().system()
    }
}
