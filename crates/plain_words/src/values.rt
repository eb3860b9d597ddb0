// A value with the element that it is.
use crate::elements::Elements;
use crate::text::Text;
use machine::Machine;
use std::alloc::Global;

/// Adds a value of this variable or of this channel, with the name of the element that it is.
pub fn add_value(
    text: &mut Text,
    alloc: Global,
    machine: &Machine,
    elements: &Elements<'_>,
    variable: Option<u32>,
    channel: Option<u32>,
    bits: u64,
) {
    text.add_number(bits);
    let system = machine.checked().system();
    let of_variable = match variable {
        Some(number) => elements.of_variable(alloc, system, number, bits),
        None => None,
    };
    let element = match (of_variable, channel) {
        (None, Some(number)) => elements.of_channel(system, number, bits),
        (found, _) => found,
    };
    if let Some(name) = element {
        text.add(b" (");
        text.add(name);
        text.add(b")");
    }
}
