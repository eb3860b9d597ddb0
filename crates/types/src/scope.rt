// What the names mean that are visible at a place.
ghost use Rattle.std.specs.Prelude.{◌≡◌, [], length, take, IfOk, OnOk};
ghost use Rattle.std.specs.Option.{option_copied};
ghost use Rattle.types.specs.Names as names;
ghost use Rattle.types.specs.internal.Scopes.{entries};

use crate::verdict::Settled;
use crate::{Binding, Fault, LocalKind, PortKind};
use indexmap::IndexMap;
use std::alloc::{AllocError, Global};
use syntax::{Identifier, Items, Name};
use value::{Value, Width};

/// What a declared name means.
#[derive(Clone, Copy)]
pub(crate) enum Meaning {
    TypeName(Width),
    Element(Value),
    /// the procedure at this place of the description
    Procedure(u32),
    /// the port at this place among those of its procedure, to receive values of this width
    Input(u32, Width),
    /// the port at this place, to send values of this width
    Output(u32, Width),
    /// the port at this place, for handshakes without data
    SyncPort(u32),
    /// the variable at this place among the locals of its procedure, of this width
    Variable(u32, Width),
    /// the channel at this place among the locals, for values of this width
    Channel(u32, Width),
    /// the channel at this place among the locals, for handshakes without data
    Sync(u32),
}

impl Meaning {
    /// The port at the place.
    pub(crate) fn of_port(port: u32, kind: PortKind) -> Meaning
        ensures { result ≡ names.port_meaning port kind }
    {
        match kind {
            PortKind::Input(width) => Meaning::Input(port, width),
            PortKind::Output(width) => Meaning::Output(port, width),
            PortKind::Sync => Meaning::SyncPort(port),
        }
    }

    /// The local at the place.
    pub(crate) fn of_local(local: u32, kind: LocalKind) -> Meaning
        ensures { result ≡ names.local_meaning local kind }
    {
        match kind {
            LocalKind::Variable(width) | LocalKind::SharedVariable(width) => {
                Meaning::Variable(local, width)
            }
            LocalKind::Channel(width) => Meaning::Channel(local, width),
            LocalKind::Sync => Meaning::Sync(local),
        }
    }
}

/// What a name is where it is used.
#[derive(Clone, Copy)]
pub(crate) enum Found {
    Nothing,
    /// a channel that is open around the place
    Opened(Channel),
    Means(Meaning),
}

/// The most names for which room is made before they are declared.
const MOST_ROOM: usize = 8_192;

/// The visible names, in order of declaration, each with what it means.
#[derive(Drop)]
pub(crate) struct Names {
    index: IndexMap<Vec<u8>, Meaning>,
}

impl Names {
    pub(crate) fn new(alloc: Global) -> Names
        ensures { entries result ≡ [] }
    {
        Names {
            index: IndexMap::new(alloc),
        }
    }

    pub(crate) fn len(&self) -> usize
        ensures { result ≡ length (entries self.now) }
    {
        self.index.len()
    }

    pub(crate) fn meaning(&self, name: &Name) -> Option<&Meaning>
        ensures { option_copied result ≡ names.look_up (entries self.now) name.now }
    {
        self.index.get(name.text())
    }

    /// Makes room for so many names more, or for as many as are worth it: they may all be one.
    pub(crate) fn reserve(&mut self, count: usize) -> Result<(), AllocError>
        ensures { entries self.new ≡ entries self.old }
    {
        self.index.reserve(count.min(MOST_ROOM))
    }

    /// Makes the name visible, unless it is visible already: the first declaration stands.
    pub(crate) fn declare(
        &mut self,
        alloc: Global,
        declared: &Identifier,
        meaning: Meaning,
    ) -> Settled<()>
        ensures fresh { IfOk result (λ made.
            made ≡ names.is_fresh (entries self.old) declared.now.name declared.now.span.start) }
        ensures declared { OnOk result (entries self.new
            ≡ names.declared (entries self.old) declared.now.name meaning) }
    {
        if self.meaning(&declared.name).is_some() {
            return Ok(Err(Fault::NameTwice(declared.span.start)));
        }
        let key = Vec::from_slice(alloc, declared.name.text())?;
        self.index.insert(key, meaning)?;
        Ok(Ok(()))
    }

    /// What the name is at a place around which these channels are open.
    #[tactic(auto, unfolding(crate::specs::Names::find))]
    pub(crate) fn find(&self, opened: &[Binding], name: &Name) -> Found
        ensures { result ≡ names.find (entries self.now) opened.now name.now }
    {
        match self.meaning(name) {
            Some(meaning) => found_as(opened, meaning),
            None => Found::Nothing,
        }
    }

    /// Leaves the first `count` names visible.
    pub(crate) fn keep_first(&mut self, count: usize)
        ensures { entries self.new ≡ take count (entries self.old) }
    {
        self.index.truncate(count);
    }
}

/// The visible names, and the ports of the visible procedures.
#[derive(Drop)]
pub(crate) struct Scope {
    pub(crate) names: Names,
    /// by the procedure's place in the description
    pub(crate) signatures: Items<Items<PortKind>>,
}

impl Scope {
    pub(crate) fn new(alloc: Global) -> Scope
        ensures names { entries result.names ≡ [] }
        ensures signatures { result.signatures ≡ [] }
    {
        Scope {
            names: Names::new(alloc),
            signatures: Items::new(alloc),
        }
    }
}

/// What a name of this meaning is where these channels are open.
fn found_as(opened: &[Binding], meaning: &Meaning) -> Found
    ensures { result ≡ names.found_as opened.now meaning.now (names.channel_of meaning.now) }
{
    match channel_of(meaning) {
        Some(channel) => {
            if is_open(opened, channel.binding) {
                Found::Opened(channel)
            } else {
                Found::Means(*meaning)
            }
        }
        None => Found::Means(*meaning),
    }
}

fn is_open(opened: &[Binding], binding: Binding) -> bool
    ensures { result ≡ names.is_among opened.now binding }
{
    for open in opened {
        if is_same(binding, *open) {
            return true;
        }
    }
    false
}

fn is_same(one: Binding, other: Binding) -> bool
    ensures { result ≡ names.same_binding one other }
{
    match one {
        Binding::Port(one) => match other {
            Binding::Port(other) => one == other,
            Binding::Local(_) => false,
        },
        Binding::Local(one) => match other {
            Binding::Port(_) => false,
            Binding::Local(other) => one == other,
        },
    }
}

/// A channel, and the width of its values, if it has any.
#[derive(Clone, Copy)]
pub(crate) struct Channel {
    pub(crate) binding: Binding,
    pub(crate) width: Option<Width>,
}

/// The channel that a name of this meaning is.
fn channel_of(meaning: &Meaning) -> Option<Channel>
    ensures { result ≡ names.channel_of meaning.now }
{
    match meaning {
        Meaning::Input(port, width) => data(Binding::Port(*port), *width),
        Meaning::Output(port, width) => data(Binding::Port(*port), *width),
        Meaning::Channel(local, width) => data(Binding::Local(*local), *width),
        Meaning::SyncPort(port) => handshake(Binding::Port(*port)),
        Meaning::Sync(local) => handshake(Binding::Local(*local)),
        Meaning::TypeName(_) => None,
        Meaning::Element(_) => None,
        Meaning::Procedure(_) => None,
        Meaning::Variable(_, _) => None,
    }
}

fn data(binding: Binding, width: Width) -> Option<Channel>
    ensures { result ≡ Some (record { binding = binding; width = Some width }) }
{
    Some(Channel {
        binding,
        width: Some(width),
    })
}

fn handshake(binding: Binding) -> Option<Channel>
    ensures { result ≡ Some (record { binding = binding; width = None }) }
{
    Some(Channel {
        binding,
        width: None,
    })
}
