// How each word is written.
use crate::misfits::add_unfit;
use plain_words::Text;

/// A word, how it is written, and an example of it.
#[derive(Clone, Copy)]
pub(crate) struct Usage {
    pub(crate) word: &'static str,
    pub(crate) form: &'static str,
    pub(crate) does: &'static str,
    pub(crate) example: &'static str,
}

/// All words, in the order in which help names them.
pub(crate) const USAGES: [Usage; 33] = [
    Usage {
        word: "ready",
        form: "ready, or r",
        does: "numbers the steps that can be taken now; a bare number takes one",
        example: "ready",
    },
    Usage {
        word: "r",
        form: "r",
        does: "is `ready`",
        example: "r",
    },
    Usage {
        word: "step",
        form: "step PLACE [ARM]",
        does: "takes the step at a place, as `ready` writes it",
        example: "step /0.0/0",
    },
    Usage {
        word: "run",
        form: "run [N]",
        does: "steps the branches in turn: to a breakpoint, to the end, or N steps",
        example: "run 10",
    },
    Usage {
        word: "next",
        form: "next [K], or n",
        does: "takes the next step of branch K, or of the branch stepped last",
        example: "next 0",
    },
    Usage {
        word: "n",
        form: "n [K]",
        does: "is `next`",
        example: "n",
    },
    Usage {
        word: "branch",
        form: "branch K",
        does: "takes the next step of branch K",
        example: "branch 0",
    },
    Usage {
        word: "undo",
        form: "undo [T]",
        does: "takes step T back where no other depends on it, or the newest step",
        example: "undo 3",
    },
    Usage {
        word: "back",
        form: "back [N]",
        does: "takes back the newest step, or the newest N",
        example: "back 2",
    },
    Usage {
        word: "roll",
        form: "roll T",
        does: "takes back step T and all that depend on it",
        example: "roll 1",
    },
    Usage {
        word: "rollvalue",
        form: "rollvalue X",
        does: "takes back what wrote the variable X last, and all that depends on it",
        example: "rollvalue x",
    },
    Usage {
        word: "value",
        form: "value X",
        does: "tells the value of the variable X",
        example: "value x",
    },
    Usage {
        word: "vars",
        form: "vars",
        does: "tells all variables with their values",
        example: "vars",
    },
    Usage {
        word: "why",
        form: "why X [all], or why T [all]",
        does: "tells what led to X's value, to the last step on channel X, or to step T",
        example: "why x",
    },
    Usage {
        word: "blame",
        form: "blame X",
        does: "tells the last step that wrote the variable X",
        example: "blame x",
    },
    Usage {
        word: "consequences",
        form: "consequences T",
        does: "tells the steps that depend on step T",
        example: "consequences 1",
    },
    Usage {
        word: "live",
        form: "live [N]",
        does: "lists the steps taken and not taken back, or the newest N in words",
        example: "live 2",
    },
    Usage {
        word: "show",
        form: "show T",
        does: "tells step T in words, on what it depends, and what depends on it",
        example: "show 3",
    },
    Usage {
        word: "waiting",
        form: "waiting",
        does: "tells who waits for whom",
        example: "waiting",
    },
    Usage {
        word: "outline",
        form: "outline",
        does: "lists the branches, variables and channels with their numbers",
        example: "outline",
    },
    Usage {
        word: "list",
        form: "list [LINE]",
        does: "shows the source around a line: > can go on, * breakpoint, ! choice",
        example: "list 7",
    },
    Usage {
        word: "view",
        form: "view",
        does: "shows the whole source with its marks",
        example: "view",
    },
    Usage {
        word: "break",
        form: "break LINE",
        does: "sets a breakpoint on a line",
        example: "break 7",
    },
    Usage {
        word: "clear",
        form: "clear LINE",
        does: "takes the breakpoint off a line",
        example: "clear 7",
    },
    Usage {
        word: "session",
        form: "session K",
        does: "turns to session K, 0 to 15, which has breakpoints of its own",
        example: "session 1",
    },
    Usage {
        word: "save",
        form: "save NAME",
        does: "writes the trace of the live steps to a new file; `save!` writes over one",
        example: "save adder.trace",
    },
    Usage {
        word: "save!",
        form: "save! NAME",
        does: "writes the trace of the live steps to a file, over what it had",
        example: "save! adder.trace",
    },
    Usage {
        word: "load",
        form: "load NAME",
        does: "takes the steps of a trace, in place of those that were taken",
        example: "load adder.trace",
    },
    Usage {
        word: "script",
        form: "script NAME",
        does: "writes the lines so far to a new file, for `debug`; `script!` over one",
        example: "script adder.script",
    },
    Usage {
        word: "script!",
        form: "script! NAME",
        does: "writes the lines so far to a file, over what it had",
        example: "script! adder.script",
    },
    Usage {
        word: "trace",
        form: "trace",
        does: "shows the trace of the live steps",
        example: "trace",
    },
    Usage {
        word: "help",
        form: "help [WORD]",
        does: "lists the words, or tells of one, or of a notion, as `ring` or `place`",
        example: "help undo",
    },
    Usage {
        word: "quit",
        form: "quit",
        does: "ends, as Ctrl-D and Ctrl-C do; what was saved stays",
        example: "quit",
    },
];

/// The usage of this word, in small letters or large ones.
pub(crate) fn usage_of(word: &[u8]) -> Option<Usage> {
    for usage in &USAGES {
        if usage.word.as_bytes().eq_ignore_ascii_case(word) {
            return Some(*usage);
        }
    }
    None
}

/// Adds why the line is none of this word with `rest` behind it, and how the word is written.
pub(crate) fn add_usage(text: &mut Text, word: &[u8], rest: &[u8]) {
    text.add(b"  ");
    add_usage_words(text, word, rest);
}

/// The same without the blanks before it; nothing where the word is none.
pub(crate) fn add_usage_words(text: &mut Text, word: &[u8], rest: &[u8]) {
    let Some(usage) = usage_of(word) else {
        return;
    };
    match usage.operand() {
        Some(operand) => {
            add_misfit(text, &usage, operand, rest);
            text.add(b"\n  write `");
            text.add(usage.form.as_bytes());
            text.add(b"`, as `");
            text.add(usage.example.as_bytes());
        }
        None => {
            text.add(b"nothing may stand behind `");
            text.add(word);
        }
    }
    text.add(b"`\n  it ");
    text.add(usage.does.as_bytes());
    text.add(b"\n");
}

/// Adds that the operand is missing, where nothing is given, or that what is given is none.
fn add_misfit(text: &mut Text, usage: &Usage, operand: &str, rest: &[u8]) {
    if rest.is_empty() {
        text.add(b"`");
        text.add(usage.word.as_bytes());
        text.add(b"` lacks ");
        text.add(operand.as_bytes());
    } else {
        add_unfit(text, usage.word, operand, rest);
    }
}

impl Usage {
    /// What stands behind the word, as `LINE` of `break LINE`; `None` where nothing does.
    fn operand(&self) -> Option<&'static str> {
        let (_, behind) = self.form.split_once(' ')?;
        if behind.starts_with("or ") {
            return None;
        }
        match behind.split_once(' ') {
            Some((first, _)) => Some(first),
            None => Some(behind),
        }
    }
}
