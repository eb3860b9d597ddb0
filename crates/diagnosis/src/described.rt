// Faults for which the description is looked at: the source is read once more.
ghost use Rattle.std.specs.Prelude.{◌≡◌, ◌≢◌, IfOk, OnOk};
ghost use Rattle.diagnosis.specs.Clashes.{AddsClash};
ghost use Rattle.refusals.specs.declared.lexer.Fault.TheVariants as no_tokens;
ghost use Rattle.refusals.specs.declared.parser.Fault.TheVariants as no_description;

use crate::{sharing, stimulus_line};
use findings::Finding;
use lexer::lex;
use parser::parse;
use std::alloc::{AllocError, Global};
use syntax::Description;

/// What was found about a fault of names, kinds, widths or sharing at the finding's place.
pub fn find(source: &[u8], number: u32, finding: &mut Finding) -> Result<(), AllocError>
    ensures { number ≡ 15 → OnOk result (AddsClash source.now finding.old finding.new) }
{
    let tokens = match lex(finding.alloc, source) {
        Ok(tokens) => tokens,
        Err(fault) => {
            not_lexer_memory(fault)?;
            return finding.say(&["a name does not fit here"]);
        }
    };
    let description = match parse(finding.alloc, tokens.as_slice()) {
        Ok(description) => description,
        Err(fault) => {
            not_parser_memory(fault)?;
            return finding.say(&["a name does not fit here"]);
        }
    };
    if number == 15 || number == 16 {
        return sharing::find(source, tokens.as_slice(), &description, number, finding);
    }
    name_faults::find(source, tokens.as_slice(), &description, number, finding)
}

/// Want of memory is handed on; with another fault the source has no tokens.
fn not_lexer_memory(fault: lexer::Fault) -> Result<(), AllocError>
    ensures { IfOk result (λ _. fault ≢ no_tokens.Memory) }
{
    match fault {
        lexer::Fault::Memory => Err(AllocError),
        lexer::Fault::BadCharacter(_)
        | lexer::Fault::OpenComment(_)
        | lexer::Fault::NumberTooLarge(_) => Ok(()),
    }
}

/// Want of memory is handed on; with another fault the tokens are no description.
fn not_parser_memory(fault: parser::Fault) -> Result<(), AllocError>
    ensures { IfOk result (λ _. fault ≢ no_description.Memory) }
{
    match fault {
        parser::Fault::Memory => Err(AllocError),
        parser::Fault::Unexpected(_) | parser::Fault::TooDeep(_) => Ok(()),
    }
}

/// The description that a source spells; none where it spells none.
pub fn described_by(alloc: Global, source: &[u8]) -> Result<Option<Description>, AllocError> {
    let tokens = match lex(alloc, source) {
        Ok(tokens) => tokens,
        Err(lexer::Fault::Memory) => return Err(AllocError),
        Err(_) => return Ok(None),
    };
    match parse(alloc, tokens.as_slice()) {
        Ok(description) => Ok(Some(description)),
        Err(parser::Fault::Memory) => Err(AllocError),
        Err(_) => Ok(None),
    }
}

/// What is wrong with a line of the stimulus.
pub fn find_stimulus(
    stimulus: &[u8],
    text: &[u8],
    source: &[u8],
    finding: &mut Finding,
) -> Result<(), AllocError> {
    match described_by(finding.alloc, source)? {
        Some(description) => stimulus_line::find(stimulus, text, source, &description, finding),
        None => finding.say(&["this line fits no port"]),
    }
}
