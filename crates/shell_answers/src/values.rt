// Variables and their values.
use crate::Scene;
use crate::steps::add_step;
use plain_words::{Text, add_value};

/// Adds a line for each variable, with its value.
pub(crate) fn add_variables(text: &mut Text, scene: &Scene<'_>) {
    let variables = scene.system().variables.as_slice();
    for (index, variable) in variables.iter().enumerate() {
        text.add(b"  ");
        text.add_qualified(&variable.name);
        text.add(b" = ");
        match u32::try_from(index) {
            Ok(number) => add_value_of(text, scene, number),
            Err(_) => text.add(b"?"),
        }
        text.add(b"\n");
    }
    if variables.is_empty() {
        text.add(b"  there are no variables\n");
    }
}

/// Adds the value that the variable has now.
pub(crate) fn add_value_of(text: &mut Text, scene: &Scene<'_>, variable: u32) {
    match scene.machine().value(variable) {
        Some(value) => add_value(
            text,
            scene.alloc,
            scene.machine(),
            scene.elements,
            Some(variable),
            None,
            value.bits(),
        ),
        None => text.add(b"?"),
    }
}

/// Adds a line with the value of the variable, and the step that wrote it.
pub(crate) fn add_valued(text: &mut Text, scene: &Scene<'_>, variable: u32) {
    text.add(b"  ");
    text.add_variable(scene.system(), Some(variable));
    text.add(b" is ");
    add_value_of(text, scene, variable);
    match scene.machine().live_events().last_writer(variable) {
        Some(ticket) => {
            text.add(b", written by ");
            add_step(text, scene, ticket);
            text.add(b"\n");
        }
        None => text.add(b", as at the beginning: no live step wrote it\n"),
    }
}
