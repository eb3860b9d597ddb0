// Blocks and lanes.
use syntax::Items;

/// A procedure as it is called once: a block of the circuit.
#[derive(Drop)]
pub struct Instance {
    /// the name of the procedure
    pub procedure: Items<u8>,
    /// the number of the procedure, from 0 in order of declaration
    pub number: usize,
    /// what stands before the names that are declared there: the number of each call around it, a `:` behind each
    pub prefix: Items<u8>,
    /// the block that calls it, by its index; none for the root
    pub parent: Option<usize>,
    /// the line of the call, from 1; of the root the line of its body
    pub call_line: u64,
    /// the line of its body, from 1
    pub line: u64,
    /// the names that the call gives, with commas
    pub arguments: Items<u8>,
}

/// What a lane belongs to.
#[derive(Clone, Copy)]
pub enum LaneKind {
    /// the environment at an input port, with the number of its channel
    Input(u32),
    /// the environment at an output port, with the number of its channel
    Output(u32),
    /// the environment at a port for handshakes, with the number of its channel
    Handshakes(u32),
    /// a branch of the body: the block that its first command is written in, by its index
    Body(usize),
}

/// A lane.
#[derive(Drop)]
pub struct Lane {
    /// the branch numbers that all its places have, without zeros at the end but for the first
    pub path: Items<u32>,
    /// the line of its first command, from 1; 0 for the environment
    pub line: u64,
    pub kind: LaneKind,
}

/// What a port of the environment has to give.
#[derive(Clone, Copy)]
pub struct Feed {
    /// the index of its lane
    pub lane: usize,
    /// how many values or handshakes
    pub count: u64,
}
