// The nearest of some names.
use std::alloc::{AllocError, Global};
use strsim::osa_distance;

/// Names of more bytes are near to none.
const LONGEST: usize = 64;

/// The nearest name so far.
#[derive(Clone, Copy)]
pub struct Nearest<'a> {
    pub name: Option<&'a str>,
    /// By how many edits.
    pub distance: usize,
}

/// How many edits make a name another one. Names of a letter are never near.
fn allowed(name: &str) -> usize {
    if name.len() < 2 {
        return 0;
    }
    (name.len() / 3).max(1)
}

impl<'a> Nearest<'a> {
    /// None yet.
    pub fn none() -> Nearest<'a> {
        Nearest {
            name: None,
            distance: usize::MAX,
        }
    }

    /// Takes a name if it is nearer than those before. One that differs in large and small letters alone is nearest.
    pub fn offer(
        &mut self,
        alloc: Global,
        name: &str,
        candidate: &'a str,
    ) -> Result<(), AllocError> {
        if name.len() > LONGEST || candidate.len() > LONGEST {
            return Ok(());
        }
        if name.eq_ignore_ascii_case(candidate) {
            self.name = Some(candidate);
            self.distance = 0;
            return Ok(());
        }
        if candidate.len() < 2 {
            return Ok(());
        }
        let distance = osa_distance(alloc, name, candidate)?;
        if distance <= allowed(name) && distance < self.distance {
            self.name = Some(candidate);
            self.distance = distance;
        }
        Ok(())
    }
}
