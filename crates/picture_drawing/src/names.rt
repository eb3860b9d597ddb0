// The names of a system, told once.
use crate::labels::add_cut;
use picture_data::prefix_length;
use std::alloc::{AllocError, Global};
use system::{QualifiedName, System};

/// So many letters of what is declared are kept at most: no more of a name is ever drawn.
const MOST_LETTERS: u64 = 256;

/// A name, or the beginning of a long one.
#[derive(Clone, Copy)]
pub(crate) struct Name<'a> {
    /// what stands before what is declared
    pub(crate) prefix: &'a [u8],
    pub(crate) own: &'a [u8],
    /// both
    pub(crate) whole: &'a [u8],
}

/// Where a name stands in the text of all.
#[derive(Clone, Copy)]
struct Span {
    begin: usize,
    own: usize,
    end: usize,
}

/// The names of the variables and channels of a system.
#[derive(Drop)]
pub(crate) struct Names {
    text: Vec<u8>,
    variables: Vec<Span>,
    channels: Vec<Span>,
}

impl Names {
    /// Those of the system.
    pub(crate) fn of(alloc: Global, system: &System) -> Result<Names, AllocError> {
        let mut names = Names {
            text: Vec::new(alloc),
            variables: Vec::new(alloc),
            channels: Vec::new(alloc),
        };
        let mut whole = Vec::new(alloc);
        names.add_variables(system, &mut whole)?;
        names.add_channels(system, &mut whole)?;
        Ok(names)
    }

    /// Adds the names of the variables. `whole` is written anew.
    fn add_variables(&mut self, system: &System, whole: &mut Vec<u8>) -> Result<(), AllocError> {
        for variable in system.variables.as_slice() {
            let span = add_name(&variable.name, whole, &mut self.text)?;
            self.variables.push(span)?;
        }
        Ok(())
    }

    /// Adds those of the channels.
    fn add_channels(&mut self, system: &System, whole: &mut Vec<u8>) -> Result<(), AllocError> {
        for channel in system.channels.as_slice() {
            let span = add_name(&channel.name, whole, &mut self.text)?;
            self.channels.push(span)?;
        }
        Ok(())
    }

    /// The name of the variable, if there is one.
    pub(crate) fn variable(&self, number: u32) -> Option<Name<'_>> {
        let span = self.variables.get(number as usize)?;
        Some(self.at(*span))
    }

    /// The name of the channel, if there is one.
    pub(crate) fn channel(&self, number: u32) -> Option<Name<'_>> {
        let span = self.channels.get(number as usize)?;
        Some(self.at(*span))
    }

    /// The name that stands there.
    fn at(&self, span: Span) -> Name<'_> {
        Name {
            prefix: self.part(span.begin, span.own),
            own: self.part(span.own, span.end),
            whole: self.part(span.begin, span.end),
        }
    }

    /// A part of the text.
    fn part(&self, begin: usize, end: usize) -> &[u8] {
        let behind = self.text.as_slice().get(begin..).unwrap_or(&[]);
        behind.get(..end.saturating_sub(begin)).unwrap_or(&[])
    }
}

/// Adds a name to the text, and tells where it stands there. `whole` is written anew.
fn add_name(
    name: &QualifiedName,
    whole: &mut Vec<u8>,
    text: &mut Vec<u8>,
) -> Result<Span, AllocError> {
    whole.clear();
    name.write_to(whole)?;
    let (prefix, declared) = whole.as_slice().split_at(prefix_length(whole.as_slice()));
    let begin = text.len();
    text.extend_from_slice(prefix)?;
    let own = text.len();
    add_cut(text, declared, MOST_LETTERS, 1)?;
    Ok(Span {
        begin,
        own,
        end: text.len(),
    })
}
