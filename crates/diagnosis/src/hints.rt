// What helps against a word or a sign that cannot stand: what Balsa writes for what other languages do.
use lexer::Kind;

/// What stands at the fault and around it.
#[derive(Clone, Copy)]
pub struct Seen<'a> {
    pub found: Kind,
    pub text: &'a str,
    /// The kind of the token before, and its text.
    pub before: Option<Kind>,
    pub text_before: &'a str,
    /// The kind of the token behind.
    pub next: Kind,
    /// Whether a number stands right before it, without a blank.
    pub touches: bool,
    /// Whether it is the first token.
    pub is_first: bool,
    /// The innermost construct that is open.
    pub open: Option<Kind>,
}

/// Whether a kind is among others.
pub fn has(viable: &[Kind], kind: Kind) -> bool {
    viable.iter().any(|one| *one == kind)
}

/// Whether a command ended before the fault, so that another may stand behind `;`.
fn is_behind_command(viable: &[Kind]) -> bool {
    has(viable, Kind::Semicolon) && has(viable, Kind::DoubleBar)
}

/// Whether an expression ended before the fault.
fn is_behind_expression(viable: &[Kind]) -> bool {
    has(viable, Kind::PlusSign)
}

/// Whether a command has to stand at the fault.
fn is_before_command(viable: &[Kind]) -> bool {
    has(viable, Kind::HaltWord)
}

/// Whether declarations of locals may go on at the fault.
fn is_among_locals(viable: &[Kind]) -> bool {
    has(viable, Kind::BeginWord) && has(viable, Kind::VariableWord)
}

/// Whether a name stood before the fault with which a command begins.
pub fn is_behind_first_name(viable: &[Kind]) -> bool {
    has(viable, Kind::AssignSign) && has(viable, Kind::LeftParenthesis)
}

/// Whether a procedure ended before the fault.
fn is_behind_procedure(viable: &[Kind]) -> bool {
    has(viable, Kind::ProcedureWord) && has(viable, Kind::End)
}

/// Whether commands, and what encloses them, may end or go on with this kind.
fn ends_command(kind: Kind) -> bool {
    matches!(
        kind,
        Kind::Semicolon
            | Kind::DoubleBar
            | Kind::Bar
            | Kind::EndWord
            | Kind::ElseWord
            | Kind::RightBracket
            | Kind::End
            | Kind::ProcedureWord
    )
}

/// Whether a command begins with this kind, with that of the token behind it.
fn begins_command(kind: Kind, next: Kind) -> bool {
    match kind {
        Kind::Name => matches!(
            next,
            Kind::AssignSign | Kind::SendSign | Kind::ReceiveSign | Kind::LeftParenthesis
        ),
        Kind::ContinueWord
        | Kind::HaltWord
        | Kind::LeftBracket
        | Kind::SyncWord
        | Kind::LoopWord
        | Kind::IfWord
        | Kind::CaseWord
        | Kind::SelectWord
        | Kind::ArbitrateWord => true,
        _ => false,
    }
}

/// Whether what stands there belongs behind a parenthesis that is closed.
fn goes_on_behind(kind: Kind, next: Kind) -> bool {
    matches!(kind, Kind::IsWord | Kind::ThenWord | Kind::OfWord)
        || ends_command(kind)
        || begins_command(kind, next)
}

/// What is said of a word or a sign that seems to be missing behind the token before the fault, and what helps.
pub fn missing(seen: Seen<'_>, viable: &[Kind]) -> Option<(&'static str, &'static str)> {
    if seen.before == Some(Kind::EndWord)
        && ends_command(seen.next)
        && seen.found != Kind::LeftBracket
    {
        return None;
    }
    if has(viable, Kind::ThenWord) && begins_command(seen.found, seen.next) {
        return Some((
            "`then` is missing here?",
            "`then` stands behind a condition, the labels of a `case` and the channel of an arm",
        ));
    }
    if is_behind_command(viable) && begins_command(seen.found, seen.next) {
        return Some((
            "`;` is missing here?",
            "`;` stands between commands that come one after the other, and `||` between branches",
        ));
    }
    if has(viable, Kind::Semicolon)
        && has(viable, Kind::RightParenthesis)
        && matches!(
            seen.found,
            Kind::InputWord | Kind::OutputWord | Kind::SyncWord
        )
    {
        return Some((
            "`;` is missing here?",
            "`;` stands between the declarations of ports",
        ));
    }
    if has(viable, Kind::IsWord)
        && matches!(
            seen.found,
            Kind::BeginWord | Kind::VariableWord | Kind::ChannelWord | Kind::SharedWord
        )
    {
        return Some((
            "`is` is missing here?",
            "a procedure is `procedure p (..) is .. begin .. end`",
        ));
    }
    None
}

/// What helps against what stands at the fault, where the grammar makes sure what is meant.
pub fn help_for(seen: Seen<'_>, viable: &[Kind]) -> Option<&'static str> {
    help_for_bracket(seen, viable)
        .or(help_for_comparison(seen, viable))
        .or(help_for_sign(seen, viable))
        .or(help_for_end(seen, viable))
        .or(help_for_declaration(seen, viable))
        .or(help_for_word(seen, viable))
}

/// What helps where a bracket or a parenthesis is not closed, or none is open.
fn help_for_bracket(seen: Seen<'_>, viable: &[Kind]) -> Option<&'static str> {
    match seen.found {
        Kind::RightBracket if seen.open == Some(Kind::LeftBracket) => None,
        Kind::RightBracket if seen.before == Some(Kind::Semicolon) => None,
        Kind::RightBracket if has(viable, Kind::EndWord) => {
            Some("an `end` is missing before this, or no `[` is open here")
        }
        Kind::RightParenthesis
            if seen.before == Some(Kind::LeftParenthesis) && has(viable, Kind::InputWord) => {
            Some("a procedure without ports has no parentheses: `procedure p is ..`")
        }
        Kind::RightParenthesis if is_behind_expression(viable) => Some("no `(` is open here"),
        _
            if seen.open == Some(Kind::LeftBracket)
                && has(viable, Kind::RightBracket)
                && ends_command(seen.found) => { Some("a `]` is missing before this") }
        _
            if seen.open == Some(Kind::LeftParenthesis)
                && has(viable, Kind::RightParenthesis)
                && goes_on_behind(seen.found, seen.next) => { Some("a `)` is missing before this") }
        _ => None,
    }
}

/// What helps against a sign that compares or assigns.
fn help_for_comparison(seen: Seen<'_>, viable: &[Kind]) -> Option<&'static str> {
    match (seen.found, seen.before) {
        (Kind::EqualSign, Some(Kind::EqualSign)) => Some("`=` alone compares"),
        (Kind::EqualSign, Some(Kind::Colon)) => Some("`:=` is one sign, without a blank in it"),
        (Kind::EqualSign, _) if has(viable, Kind::AssignSign) => {
            Some("`:=` assigns, and `=` compares")
        }
        (Kind::LessSign, Some(Kind::EqualSign)) => Some("less or equal is `<=`"),
        (Kind::GreaterSign, Some(Kind::EqualSign)) => Some("greater or equal is `>=`"),
        (Kind::GreaterSign, Some(Kind::LessSign)) => Some("not equal is `/=`"),
        (Kind::LessOrEqualSign, _) if has(viable, Kind::AssignSign) => {
            Some("`:=` assigns, `<-` sends on a channel, and `<=` compares")
        }
        (Kind::AssignSign, _) if is_among_locals(viable) => {
            Some("a variable begins at 0: assign to it behind `begin`")
        }
        (Kind::AssignSign, _) if is_behind_command(viable) => {
            Some("one variable is assigned at a time: put `;` between two assignments")
        }
        (Kind::AssignSign, _) if is_behind_expression(viable) => {
            Some("`=` compares, and `:=` assigns")
        }
        (Kind::PlusSign | Kind::MinusSign, _) if has(viable, Kind::AssignSign) => {
            Some("`:=` alone assigns: `x := x + 1`, cut to 8 bits by `x := (x + 1 as 8 bits)`")
        }
        _ => None,
    }
}

/// What helps against another sign.
fn help_for_sign(seen: Seen<'_>, viable: &[Kind]) -> Option<&'static str> {
    match seen.found {
        Kind::DoubleBar | Kind::Bar if is_behind_expression(viable) && !is_behind_command(viable) =>
            {
                Some(
                    "or is `or` in an expression; `||` stands between branches, and `|` between arms",
                )
            }
        Kind::MinusSign if has(viable, Kind::NotWord) => {
            Some("there are no numbers below 0: `0 - 1` wraps to the greatest of its width")
        }
        Kind::Colon if has(viable, Kind::AssignSign) => {
            Some("declarations stand between `is` and `begin`; `:=` assigns, without a blank in it")
        }
        Kind::Colon if has(viable, Kind::ThenWord) => Some(
            "`then` stands behind the labels of an arm",
        ),
        Kind::Comma if is_behind_expression(viable) && is_behind_command(viable) => {
            Some("`;` stands between commands that come one after the other")
        }
        Kind::Comma if has(viable, Kind::Semicolon) => {
            Some("`;` stands between declarations of ports, and `,` between the names of one")
        }
        Kind::Semicolon if is_before_command(viable) => {
            Some("`;` stands between two commands: take one out where two stand, or none is before")
        }
        Kind::DoubleBar if is_before_command(viable) => {
            Some("a command stands on each side of `||`")
        }
        Kind::Semicolon if is_among_locals(viable) => {
            Some("no `;` stands between the declarations of locals: take it out")
        }
        Kind::Semicolon if is_behind_procedure(viable) => {
            Some("no `;` stands behind the `end` of a procedure: take it out")
        }
        Kind::Number | Kind::PlusSign | Kind::MinusSign
            if has(viable, Kind::RightParenthesis)
                && !is_behind_expression(viable)
                && (has(viable, Kind::Comma) || has(viable, Kind::Name)) => {
            Some("the arguments of a call are channels and ports: send the value on one of them")
        }
        other if ends_command(other) && is_behind_first_name(viable) => {
            Some("a call has parentheses, even with no channel in them: `q ()`")
        }
        _ => None,
    }
}

/// What helps where something ends too early or too late.
fn help_for_end(seen: Seen<'_>, viable: &[Kind]) -> Option<&'static str> {
    let ends = matches!(
        seen.found,
        Kind::EndWord | Kind::ElseWord | Kind::Bar | Kind::RightBracket
    );
    if ends && seen.before == Some(Kind::Semicolon) {
        return Some("`;` stands between commands, and not behind the last: take it out");
    }
    if ends && seen.before == Some(Kind::DoubleBar) {
        return Some("a command stands on each side of `||`");
    }
    if seen.found == Kind::EndWord && has(viable, Kind::Bar) && !has(viable, Kind::EndWord) {
        return Some("an `arbitrate` has two arms: `arbitrate a then .. | b then .. end`");
    }
    if seen.found == Kind::EndWord && is_behind_procedure(viable) {
        return Some("this is one `end` too many: the procedure has ended before it");
    }
    if seen.found == Kind::EndWord && is_before_command(viable) {
        return Some("a command stands here: `continue` does nothing, and `halt` never ends");
    }
    if seen.open == Some(Kind::EnumerationWord) && has(viable, Kind::EndWord) {
        return Some("an enumeration ends with `end`, and has `,` between its elements");
    }
    if seen.found == Kind::End && has(viable, Kind::TypeWord) {
        return Some("behind the types stands one `procedure` at least");
    }
    if matches!(seen.found, Kind::ProcedureWord | Kind::End) && has(viable, Kind::EndWord) {
        return Some(
            "an `end` is missing before this: each procedure, `loop`, `if`, `case`, `select`, `arbitrate` and \
             `-> then` has one",
        );
    }
    if seen.before == Some(Kind::EndWord)
        && is_behind_command(viable)
        && ends_command(seen.next)
        && !ends_command(seen.found)
    {
        return Some("`end` stands alone, with no word behind it");
    }
    None
}

/// What helps against a word in declarations.
fn help_for_declaration(seen: Seen<'_>, viable: &[Kind]) -> Option<&'static str> {
    match seen.found {
        Kind::ChannelWord | Kind::SyncWord if seen.before == Some(Kind::SharedWord) => {
            Some("only variables are shared")
        }
        Kind::TypeWord if has(viable, Kind::ProcedureWord) => {
            Some("types are declared in front of the first procedure")
        }
        Kind::VariableWord | Kind::ChannelWord | Kind::SharedWord
            if is_before_command(viable) || is_behind_command(viable) => {
            Some("variables and channels are declared between `is` and `begin`")
        }
        Kind::BitsWord if has(viable, Kind::Number) => Some("the number stands first: `8 bits`"),
        Kind::BitsWord | Kind::Number | Kind::Name | Kind::AssignSign | Kind::EqualSign
            if has(viable, Kind::Colon) && has(viable, Kind::Comma) => {
            Some(
                "`:` and a type stand behind the names, as in `variable x : 8 bits`; a variable begins at 0",
            )
        }
        Kind::BeginWord | Kind::VariableWord | Kind::ChannelWord
            if has(viable, Kind::Colon) && has(viable, Kind::Comma) => {
            Some("a type is missing, as in `variable x : 8 bits`")
        }
        Kind::RightParenthesis | Kind::Semicolon
            if has(viable, Kind::Colon) && has(viable, Kind::Comma) => {
            Some("a type is missing, as in `input i : 8 bits`")
        }
        Kind::Name if has(viable, Kind::InputWord) => {
            Some("a port begins with `input`, `output` or `sync`: `input i : 8 bits`")
        }
        Kind::Name if is_among_locals(viable) && matches!(seen.next, Kind::Colon | Kind::Comma) => {
            Some("each declaration begins with `variable`, `channel`, `sync` or `shared variable`")
        }
        Kind::Name if seen.before == Some(Kind::EndWord) && is_behind_procedure(viable) => {
            Some("`end` stands alone: behind it another `procedure` begins, or the source ends")
        }
        _ => None,
    }
}

/// What helps against a word that is reserved here, or that another language has.
fn help_for_word(seen: Seen<'_>, viable: &[Kind]) -> Option<&'static str> {
    match seen.found {
        Kind::WhileWord if has(viable, Kind::LoopWord) => Some("write `loop while .. then .. end`"),
        Kind::ThenWord if seen.before == Some(Kind::ElseWord) => {
            Some("no `then` stands behind `else`")
        }
        Kind::Number if seen.text_before == "array" => {
            Some("there are no arrays: declare a variable for each element")
        }
        Kind::Name if is_behind_first_name(viable) && seen.before == Some(Kind::Name) => {
            help_for_statement(seen.text_before)
        }
        Kind::Name | Kind::LeftParenthesis if seen.before == Some(Kind::Name) => {
            help_for_foreign(seen.text, viable)
        }
        Kind::Name => help_for_foreign(seen.text, viable),
        _ => None,
    }
}

/// What helps against the word of a command that other languages have.
pub fn help_for_statement(word: &str) -> Option<&'static str> {
    match word {
        "for" | "foreach" | "repeat" | "forever" | "do" | "until" => Some(
            "`loop .. end` goes on for ever, and `loop while .. then .. end` as long as a condition holds",
        ),
        "var" | "let" | "int" | "reg" | "wire" | "signal" | "logic" | "bit" | "const" => Some(
            "variables are declared between `is` and `begin`, as in `variable x : 8 bits`",
        ),
        "print" | "printf" | "puts" | "write" | "display" => {
            Some("a value comes out at an output port: `o <- x`")
        }
        "return" => Some("a procedure gives no value back: send it on a channel, as in `o <- x`"),
        "call" => Some("a call is the name of the procedure alone, as in `q (c)`"),
        "send" => Some("a value is sent on a channel by `c <- e`"),
        "receive" | "recv" => Some("a value is received from a channel by `c -> x`"),
        "switch" | "match" | "when" => Some(
            "a choice by a value is `case e of 0 then .. | 1 then .. end`",
        ),
        _ => None,
    }
}

/// What helps against a word that other languages have where this one has another.
fn help_for_foreign(word: &str, viable: &[Kind]) -> Option<&'static str> {
    match word {
        "do" if has(viable, Kind::ThenWord) => Some("write `then` for `do`"),
        "elsif" | "elif" | "elseif" | "elsf" => {
            Some("further conditions stand behind `|`: `if a then .. | b then .. else .. end`")
        }
        "endif" | "endloop" | "endcase" | "endwhile" | "fi" | "od" | "done" | "esac"
            if has(viable, Kind::EndWord) => { Some("write `end`, which closes each of these") }
        "mod" | "div" | "rem" | "shl" | "shr" | "sll" | "srl" if is_behind_expression(viable) => {
            Some("there are `+`, `-`, `and`, `or`, `xor`, `not` and comparisons alone")
        }
        "record" | "struct" if has(viable, Kind::EnumerationWord) => {
            Some("there are no records: a type is a width, as `8 bits`, or an enumeration")
        }
        "nand" | "nor" | "xnor" if is_behind_expression(viable) => {
            Some("write it by `not`: `not (a and b)`")
        }
        _ => None,
    }
}

/// What helps against a word with which sources of other languages begin.
pub fn help_for_begin(word: &str) -> Option<&'static str> {
    match word {
        "constant" | "const" => {
            Some("there are no constants: write the number, or declare an enumeration")
        }
        "import" | "include" | "use" => {
            Some("there are no imports: what it brought is declared in this file")
        }
        "module" | "entity" | "function" | "process" | "proc" | "def" | "fn" | "void" | "main" => {
            Some("a description is `procedure p (..) is .. begin .. end`")
        }
        _ => None,
    }
}
