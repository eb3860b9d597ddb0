// Commands of the program, which are none of the shell.
use line_text::read_ticket;
use plain_words::Text;

/// A command of the program, and what stands behind it.
#[derive(Clone, Copy)]
pub(crate) struct ProgramWord {
    word: &'static str,
    operands: &'static str,
}

/// Those that a person may look for in the shell.
const PROGRAM_WORDS: [ProgramWord; 7] = [
    ProgramWord {
        word: "check",
        operands: "FILE",
    },
    ProgramWord {
        word: "dap",
        operands: "",
    },
    ProgramWord {
        word: "debug",
        operands: "FILE STIMULUS",
    },
    ProgramWord {
        word: "explain",
        operands: "N",
    },
    ProgramWord {
        word: "picture",
        operands: "FILE STIMULUS TRACE",
    },
    ProgramWord {
        word: "replay",
        operands: "FILE STIMULUS TRACE",
    },
    ProgramWord {
        word: "work",
        operands: "FILE STIMULUS --workers N --turns M",
    },
];

/// The command of the program with this word, in small letters or large ones.
pub(crate) fn program_word(word: &[u8]) -> Option<ProgramWord> {
    for known in &PROGRAM_WORDS {
        if known.word.as_bytes().eq_ignore_ascii_case(word) {
            return Some(*known);
        }
    }
    None
}

/// Adds that this is a command of the program, and the line to type: with the number that was typed behind it, where
/// one was.
pub(crate) fn add_program_word(text: &mut Text, found: &ProgramWord, rest: &[u8]) {
    text.add(b"  `");
    text.add(found.word.as_bytes());
    text.add(b"` is a command of the program\n  outside of the shell type `balsadbg ");
    text.add(found.word.as_bytes());
    match read_ticket(rest) {
        Some(number) if found.operands == "N" => text.add_counted(b" ", number, b""),
        _ => found.add_operands(text),
    }
    text.add(b"`");
    if found.operands == "FILE STIMULUS TRACE" {
        text.add(b"\n  `save TRACE` writes the trace here");
    }
    text.add(b"\n");
}

impl ProgramWord {
    /// Adds what stands behind it.
    fn add_operands(&self, text: &mut Text) {
        if !self.operands.is_empty() {
            text.add(b" ");
            text.add(self.operands.as_bytes());
        }
    }
}
