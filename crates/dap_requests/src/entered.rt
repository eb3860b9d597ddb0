// Whether an expression was typed as a line, or is only looked at, and what line it is.
ghost use Rattle.std.specs.Prelude.{◌≡◌, Some, codes};
ghost use Rattle.std.specs.Option.{option_map};
ghost use Rattle.serde_json.specs.View.{view};
ghost use Rattle.dap_messages.specs.Arguments.{text_named};
ghost use Rattle.dap_requests.specs.Typed as model;

use dap_messages::Request;

/// The line of a request: its expression without blanks around it and without marks before it.
pub(crate) fn line_in(request: &Request) -> &str
    ensures { result.now ≡ model.line_in request.now }
{
    line_of(request.text("expression"))
}

/// The line of an expression.
fn line_of(expression: Option<&str>) -> &str
    ensures { result.now ≡ model.line_of (option_map (λ s. s.now) expression.entry) }
{
    match expression {
        Some(text) => line_of_text(text),
        None => "",
    }
}

/// The line of a text.
fn line_of_text(text: &str) -> &str
    ensures { result.now ≡ model.line_of (Some text.now) }
{
    let rest = text.trim_ascii();
    without_marks(rest).trim_ascii()
}

/// The text without marks before it.
fn without_marks(text: &str) -> &str
    ensures { result.now ≡ model.without_before model.is_mark text.now }
{
    text.trim_start_matches('!')
}

/// Whether the expression was typed as a line: in the console, or behind a `!`.
pub fn is_typed(request: &Request) -> bool
    ensures { result ≡ model.is_typed request.now }
{
    let console = in_console(request);
    let marked = has_mark(request);
    console || marked
}

/// Whether it came from the console.
fn in_console(request: &Request) -> bool
    ensures { result ≡ model.is_console (text_named (codes "context") (view request.now.arguments)) }
{
    is_console(request.text("context"))
}

/// Whether a mark stands before it.
pub(crate) fn has_mark(request: &Request) -> bool
    ensures { result ≡ model.is_marked (text_named (codes "expression") (view request.now.arguments)) }
{
    is_marked(request.text("expression"))
}

/// Whether this is the console.
fn is_console(context: Option<&str>) -> bool
    ensures { result ≡ model.is_console (option_map (λ s. s.now) context.entry) }
{
    match context {
        Some(word) => word.as_bytes() == b"repl".as_slice(),
        None => false,
    }
}

/// Whether a mark stands before the expression.
fn is_marked(expression: Option<&str>) -> bool
    ensures { result ≡ model.is_marked (option_map (λ s. s.now) expression.entry) }
{
    match expression {
        Some(text) => begins_marked(text.as_bytes()),
        None => false,
    }
}

/// Whether the first byte that is not blank is the mark.
fn begins_marked(text: &[u8]) -> bool
    ensures { result ≡ model.begins_marked text.now }
{
    for byte in text {
        if !byte.is_ascii_whitespace() {
            return *byte == b'!';
        }
    }
    false
}
