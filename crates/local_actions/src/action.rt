use address::Address;
use system::Variables;
use value::Value;

/// What an action does, with its values over the variables.
#[derive(Drop)]
pub enum ActionKind {
    /// to the variable this value, of its width; with the variables that are read
    Assigns(u32, Value, Variables),
    /// takes this arm or none; with the variables that are read
    Tests(Option<u32>, Variables),
    Turns,
    /// on the channel this value, of its width; with the variables that are read
    Sends(u32, Value, Variables),
    /// on the channel, into the variable or into none
    Receives(u32, Option<u32>),
    Syncs(u32),
    /// on the channel, this arm
    Opens(u32, u32),
    Releases(u32),
    Closes(u32),
}

/// An action, and the place that offers it.
#[derive(Drop)]
pub struct LocalAction {
    pub place: Address,
    pub action: ActionKind,
}
