use crate::channel::{Asked, ChannelUses, uses_in};
use std::alloc::{AllocError, Global};
use syntax::{Description, Name, PortKind, Procedure};

/// The uses of a procedure's port.
#[derive(Drop)]
pub struct PortUses {
    /// The procedure's name.
    procedure: Name,
    /// Which of its ports, from 0.
    place: usize,
    pub uses: ChannelUses,
}

impl PortUses {
    /// Whether it is this port of the procedure with this name.
    pub fn is_of(&self, procedure: &[u8], place: usize) -> bool {
        self.place == place && *self.procedure.text() == *procedure
    }
}

/// Whether a port has no data.
fn is_sync_port(kind: &PortKind) -> bool {
    matches!(kind, PortKind::Sync)
}

/// Adds the uses of a procedure's ports.
fn add_ports(
    alloc: Global,
    procedure: &Procedure,
    ports: &mut Vec<PortUses>,
) -> Result<(), AllocError> {
    let mut place = 0_usize;
    for port in procedure.ports.as_slice() {
        for name in port.names.as_slice() {
            let asked = Asked {
                alloc,
                name: name.name.text(),
                is_sync: is_sync_port(&port.kind),
                ports: ports.as_slice(),
            };
            let uses = uses_in(&procedure.body, asked)?;
            let procedure = procedure.name.name.clone()?;
            ports.push(PortUses {
                procedure,
                place,
                uses,
            })?;
            place = place.saturating_add(1);
        }
    }
    Ok(())
}

/// The uses of a channel that may stand side by side in the procedure with this number, from 1, and in those that it
/// calls: on each side as many as can be at one time, up to three. The environment of a port is not among them.
pub fn channel_uses(
    alloc: Global,
    description: &Description,
    owner: usize,
    name: &[u8],
    is_sync: bool,
) -> Result<ChannelUses, AllocError> {
    let mut ports = Vec::new(alloc);
    let mut number = 0_usize;
    let mut uses = ChannelUses {
        uses: Vec::new(alloc),
    };
    for procedure in description.procedures.as_slice() {
        number = number.saturating_add(1);
        if number < owner {
            add_ports(alloc, procedure, &mut ports)?;
        }
        if number == owner {
            let asked = Asked {
                alloc,
                name,
                is_sync,
                ports: ports.as_slice(),
            };
            uses = uses_in(&procedure.body, asked)?;
        }
    }
    Ok(uses)
}
