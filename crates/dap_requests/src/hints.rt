// Words that the shell or `balsadbg` has and the console has not, with what serves in their place.
use dap_views::Words;

/// Adds what serves in place of the line, where its first word is one that the shell or `balsadbg` has.
pub(crate) fn add_in_place(line: &str, words: &mut Words) {
    let hint = in_place_of(first_word(line));
    if !hint.is_empty() {
        words.add(": ");
        words.add(hint);
    }
}

/// The line up to its first blank.
fn first_word(line: &str) -> &str {
    match line.split_once(' ') {
        Some((word, _)) => word,
        None => line,
    }
}

/// What serves in place of a line that begins with this word; empty where that is not known.
fn in_place_of(word: &str) -> &'static str {
    match word {
        "why" => {
            "`blame X` tells the step that wrote X, `consequences T` those that depend on step T"
        }
        "run" => "`continue` of the editor runs on, and `branch K` takes one step of branch K",
        "next" | "n" =>
            "`next` of the editor takes one step of a thread, `branch K` one of branch K",
        "r" => "`ready` lists what can be stepped",
        "undo" | "roll" => "with the ticket of a step, as `undo 3`; `back` takes the newest back",
        "back" => "it stands alone, and takes the newest step of this thread back",
        "save" => "`trace` shows the trace: a file with it can be the `trace` of a launch",
        "load" => "a launch with the file as its `trace` begins behind its last step",
        "vars" => "the editor shows the variables, and `value X` tells one",
        "list" => "`view` shows the source with its marks",
        "waiting" => "the stack of a thread tells on which channel it waits",
        "value" | "blame" | "rollvalue" =>
            "with the whole name of a variable, as the lines of steps have it: `1:x` is x of call 1",
        "step" => "with the place of what can be stepped, as `ready` lists it: `step /0.1`",
        "branch" => "with the number of a branch, as `branch 0`",
        "session" => "the console is one session, and needs no such line",
        "quit" => "the editor ends the session",
        "help" =>
            "lines are those of a script, as `ready`, `undo 3` or `blame X`, and `back` and `rewind`",
        _ => "",
    }
}
