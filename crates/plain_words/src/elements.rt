// The elements of enumerations, and which variables and channels have them: what the declarations of the source say.
use crate::parts::{own_name, part_of};
use lexer::{Kind, Token, lex};
use std::alloc::{AllocError, Global};
use syntax::Span;
use system::System;

/// Longer sources are not looked through for names of elements: their tokens would take too much memory.
const LONGEST: usize = 1 << 20;

/// An enumeration of the source.
#[derive(Drop)]
struct Enumeration {
    name: Span,
    elements: Vec<Span>,
}

/// A name that a port or a local has, with its type.
#[derive(Clone, Copy)]
struct Declared {
    name: Span,
    type_name: Span,
    /// how many procedures begin before it
    procedure: u64,
}

/// The enumerations of a source, and the declarations that may name them.
#[derive(Drop)]
pub struct Elements<'a> {
    source: &'a [u8],
    enumerations: Vec<Enumeration>,
    declared: Vec<Declared>,
    /// how many procedures there are
    procedures: u64,
}

impl<'a> Elements<'a> {
    /// Those of a source that the lexer accepts; none where it is longer than a megabyte. It is an error if there is no
    /// memory.
    pub fn of(alloc: Global, source: &'a [u8]) -> Result<Elements<'a>, AllocError> {
        let mut elements = Elements {
            source,
            enumerations: Vec::new(alloc),
            declared: Vec::new(alloc),
            procedures: 0,
        };
        if source.len() <= LONGEST {
            elements.look_through(alloc)?;
        }
        Ok(elements)
    }

    /// Looks for enumerations, and where there are some for the declarations.
    fn look_through(&mut self, alloc: Global) -> Result<(), AllocError> {
        let tokens = tokens_of(alloc, self.source)?;
        self.find_enumerations(alloc, tokens.as_slice())?;
        if self.enumerations.is_empty() {
            return Ok(());
        }
        self.find_declared(tokens.as_slice())
    }

    /// Finds `NAME is enumeration ..`.
    fn find_enumerations(&mut self, alloc: Global, tokens: &[Token<'_>]) -> Result<(), AllocError> {
        for index in 0..tokens.len() {
            if let Some([name, is, word, elements @ ..]) = tokens.get(index..) {
                if is.kind == Kind::IsWord && word.kind == Kind::EnumerationWord {
                    self.add_enumeration(alloc, name.span, elements)?;
                }
            }
        }
        Ok(())
    }

    /// Adds the enumeration of this name, whose elements the tokens begin with.
    fn add_enumeration(
        &mut self,
        alloc: Global,
        name: Span,
        elements: &[Token<'_>],
    ) -> Result<(), AllocError> {
        let elements = names_from(alloc, elements)?;
        self.enumerations.push(Enumeration { name, elements })?;
        Ok(())
    }

    /// Finds `NAME, NAME : TYPE`.
    fn find_declared(&mut self, tokens: &[Token<'_>]) -> Result<(), AllocError> {
        for index in 0..tokens.len() {
            match tokens.get(index..) {
                Some([colon, type_name, ..]) if colon.kind == Kind::Colon => {
                    self.add_declared(tokens.get(..index).unwrap_or(&[]), type_name.span)?;
                }
                Some([word, ..]) if word.kind == Kind::ProcedureWord => {
                    self.procedures = self.procedures.saturating_add(1);
                }
                _ => {}
            }
        }
        Ok(())
    }

    /// Adds the names that stand before a `:`, with commas between, with the type behind it.
    fn add_declared(&mut self, before: &[Token<'_>], type_name: Span) -> Result<(), AllocError> {
        for (back, token) in before.iter().rev().enumerate() {
            let wanted = if back % 2 == 0 {
                Kind::Name
            } else {
                Kind::Comma
            };
            if token.kind != wanted {
                break;
            }
            if back % 2 == 0 {
                self.declared.push(Declared {
                    name: token.span,
                    type_name,
                    procedure: self.procedures,
                })?;
            }
        }
        Ok(())
    }

    /// The name of this element of the variable's type, where that is an enumeration that has it.
    pub fn of_variable(
        &self,
        alloc: Global,
        system: &System,
        variable: u32,
        bits: u64,
    ) -> Option<&'a [u8]> {
        if self.enumerations.is_empty() {
            return None;
        }
        let mut name = Vec::new(alloc);
        system.variable_name(variable)?.write_to(&mut name).ok()?;
        self.element(self.type_of(name.as_slice())?, bits)
    }

    /// The name of this element of the channel's type, where that is an enumeration that has it.
    pub fn of_channel(&self, system: &System, channel: u32, bits: u64) -> Option<&'a [u8]> {
        if self.enumerations.is_empty() {
            return None;
        }
        let declared = system.channels.as_slice().get(channel as usize)?.declared;
        for found in self.declared.as_slice() {
            if found.name.start == declared {
                return self.element(found.type_name, bits);
            }
        }
        None
    }

    /// The type of the variable of this name; `None` where declarations of one name have several.
    fn type_of(&self, name: &[u8]) -> Option<Span> {
        let own = own_name(name);
        let is_of_root = own.len() == name.len();
        let mut found: Option<Span> = None;
        for declared in self.declared.as_slice() {
            if self.text(declared.name) == own && self.fits(declared, is_of_root) {
                match found {
                    Some(before) if self.text(before) != self.text(declared.type_name) => {
                        return None;
                    }
                    _ => found = Some(declared.type_name),
                }
            }
        }
        found
    }

    /// Whether a name without a call before it may have this declaration, or one with a call.
    fn fits(&self, declared: &Declared, is_of_root: bool) -> bool {
        (declared.procedure == self.procedures) == is_of_root
    }

    /// The element of this number of the enumeration of this name.
    fn element(&self, type_name: Span, bits: u64) -> Option<&'a [u8]> {
        let name = self.text(type_name);
        for enumeration in self.enumerations.as_slice() {
            if self.text(enumeration.name) == name {
                let index = usize::try_from(bits).ok()?;
                let span = enumeration.elements.get(index)?;
                return Some(self.text(*span));
            }
        }
        None
    }

    /// The text of a part of the source.
    fn text(&self, span: Span) -> &'a [u8] {
        part_of(self.source, span)
    }
}

/// The tokens of the source, none where the lexer refuses it.
fn tokens_of<'a>(alloc: Global, source: &'a [u8]) -> Result<Vec<Token<'a>>, AllocError> {
    match lex(alloc, source) {
        Ok(tokens) => Ok(tokens),
        Err(lexer::Fault::Memory) => Err(AllocError),
        Err(_) => Ok(Vec::new(alloc)),
    }
}

/// The names, with commas between, with which the tokens begin.
fn names_from(alloc: Global, tokens: &[Token<'_>]) -> Result<Vec<Span>, AllocError> {
    let mut names = Vec::new(alloc);
    for token in tokens {
        match token.kind {
            Kind::Name => names.push(token.span)?,
            Kind::Comma => {}
            _ => break,
        }
    }
    Ok(names)
}

/// The name of the last procedure of a source that the lexer accepts; none where it is longer than a megabyte. It is an
/// error if there is no memory.
pub fn root_name<'a>(alloc: Global, source: &'a [u8]) -> Result<Option<&'a [u8]>, AllocError> {
    if source.len() > LONGEST {
        return Ok(None);
    }
    let tokens = tokens_of(alloc, source)?;
    let mut found = None;
    for index in 0..tokens.len() {
        if let Some([word, name, ..]) = tokens.as_slice().get(index..) {
            if word.kind == Kind::ProcedureWord {
                found = Some(part_of(source, name.span));
            }
        }
    }
    Ok(found)
}
