// Kinds of declared names and of places, in words.
use written_names::{Kind, Role};

/// What a declared name is.
pub fn kind_text(kind: Kind) -> &'static str {
    match kind {
        Kind::Type => "a type",
        Kind::Element => "an element of an enumeration",
        Kind::Procedure => "a procedure",
        Kind::Input => "an input port",
        Kind::Output => "an output port",
        Kind::SyncPort => "a sync port",
        Kind::Variable => "a variable",
        Kind::SharedVariable => "a shared variable",
        Kind::Channel => "a channel",
        Kind::Sync => "a sync",
    }
}

/// What has to stand at a place. A place that has no role is that of a type.
pub fn wanted_text(role: Option<Role>) -> &'static str {
    match role {
        Some(Role::Assigned) => "a variable stands before `:=`",
        Some(Role::SentOn) => "a channel or an output port stands before `<-`",
        Some(Role::ReceivedFrom | Role::Opened) => {
            "a channel or an input port stands before `->`"
        }
        Some(Role::ReceivedInto) => "a variable stands behind `->`",
        Some(Role::Synced) => "a sync or a sync port stands behind `sync`",
        Some(Role::Arm) => "a channel, an input port, a sync or a sync port stands in an arm",
        Some(Role::Called) => "a procedure stands before `(`",
        Some(Role::Argument) => "an argument is a channel, a sync or a port",
        Some(Role::Label) => "a label is a number or an element of an enumeration",
        Some(Role::Read) => {
            "an expression names variables, elements, and channels that are open around it"
        }
        _ => "a type has to stand here",
    }
}

/// Whether a name of this kind may stand at a place.
pub fn fits(role: Option<Role>, kind: Kind) -> bool {
    match role {
        Some(Role::Assigned | Role::ReceivedInto) => {
            matches!(kind, Kind::Variable | Kind::SharedVariable)
        }
        Some(Role::SentOn) => matches!(kind, Kind::Channel | Kind::Output),
        Some(Role::ReceivedFrom | Role::Opened) => matches!(kind, Kind::Channel | Kind::Input),
        Some(Role::Synced) => matches!(kind, Kind::Sync | Kind::SyncPort),
        Some(Role::Arm) => {
            matches!(
                kind,
                Kind::Channel | Kind::Input | Kind::Sync | Kind::SyncPort
            )
        }
        Some(Role::Called) => kind == Kind::Procedure,
        Some(Role::Argument) => matches!(
            kind,
            Kind::Channel | Kind::Input | Kind::Output | Kind::Sync | Kind::SyncPort
        ),
        Some(Role::Label) => kind == Kind::Element,
        Some(Role::Read) => !matches!(kind, Kind::Type | Kind::Procedure),
        _ => kind == Kind::Type,
    }
}

/// What helps where a name of this kind stands at such a place.
pub fn help_text(role: Option<Role>, kind: Kind) -> &'static str {
    match (role, kind) {
        (Some(Role::Assigned), Kind::Channel | Kind::Output) =>
            "`c <- e` sends a value on a channel",
        (Some(Role::ReceivedInto), Kind::Channel | Kind::Output) => {
            "receive into a variable first: `i -> x ; o <- x` hands a value on"
        }
        (Some(Role::SentOn), Kind::Input) => "an input port is received from: `i -> x`",
        (Some(Role::SentOn), Kind::Variable | Kind::SharedVariable) =>
            "`x := e` assigns to a variable",
        (Some(Role::ReceivedFrom | Role::Opened), Kind::Output) => {
            "an output port is sent on: `o <- e`"
        }
        (Some(Role::ReceivedFrom | Role::Opened), Kind::Sync | Kind::SyncPort) => {
            "a sync has no data: `sync s` meets on it, and an arm of `select` or `arbitrate` opens on it"
        }
        (Some(Role::Synced), Kind::Channel | Kind::Input | Kind::Output) => {
            "a channel with data is sent on and received from: `c <- e`, `c -> x`"
        }
        (Some(Role::Arm), Kind::Output) => "an output port is sent on: `o <- e`",
        (Some(Role::Read), Kind::Channel | Kind::Input) => {
            "receive into a variable and read that: `c -> x`; or read the name inside `c -> then .. end`"
        }
        (Some(Role::Read), Kind::Output) =>
            "what is sent on an output port cannot be read: keep it in a variable",
        (Some(Role::Argument), Kind::Variable | Kind::SharedVariable) => {
            "variables stay in their procedure: pass a channel, and send the value on it"
        }
        (Some(Role::Called), _) => "a call is the name of a procedure with channels: `p (c, d)`",
        _ => "",
    }
}
