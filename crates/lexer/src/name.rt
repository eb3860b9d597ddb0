ghost use Rattle.std.specs.Prelude.{◌≡◌};
ghost use Rattle.std.specs.List.{list_all};
ghost use Rattle.lexer.specs.Bytes as bytes;
ghost use Rattle.lexer.specs.Names as names;

use crate::class::is_name_byte;
use crate::table::reserved_word;

/// Whether the whole of `text` is a name: a letter, then letters, digits and `_`, and no reserved word.
pub fn is_name(text: &[u8]) -> bool
    ensures { result ≡ names.is_name text.now }
{
    is_word(text) && reserved_word(text).is_none()
}

/// Whether the whole of `text` is a name or a reserved word.
fn is_word(text: &[u8]) -> bool
    ensures { result ≡ names.is_word text.now }
{
    let first = text.first().copied().unwrap_or(0);
    first.is_ascii_alphabetic() && has_name_bytes(text)
}

/// Whether each byte may stand in a name.
fn has_name_bytes(text: &[u8]) -> bool
    ensures { result ≡ list_all bytes.is_name_byte text.now }
{
    text.iter().all(|byte| is_name_byte(*byte))
}
