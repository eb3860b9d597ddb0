// What the words mean in which answers are told.
use plain_words::Text;

/// A notion, and what it is.
#[derive(Clone, Copy)]
pub(crate) struct Term {
    word: &'static str,
    means: &'static str,
}

/// All notions.
const TERMS: [Term; 28] = [
    Term {
        word: "address",
        means: "the same as a place, as /0.1/0: `help place` tells how it is read",
    },
    Term {
        word: "arm",
        means: "what stands behind one guard or input of a choice; arms count from 0",
    },
    Term {
        word: "assign",
        means: "a step: a variable gets a value\n    `assign x 3 /0.1`: x is set to 3 by what stands at the place /0.1",
    },
    Term {
        word: "branch",
        means: "what runs beside others: a part of the body, or a port of the environment\n    `outline` numbers them, `next K` steps branch K",
    },
    Term {
        word: "breakpoint",
        means: "a mark on a line, before which `run`, `next` and `branch` stop\n    `break 7` sets it on line 7, `clear 7` takes it off",
    },
    Term {
        word: "channel",
        means: "joins who sends and who receives: a step is taken where both are there\n    `why X` tells the last step on channel X, `outline` lists the channels",
    },
    Term {
        word: "close",
        means: "a step: an arm that was opened has ended, and what it held goes on\n    `close a /1.0.1 /0.2`: the side that was held, then the arm",
    },
    Term {
        word: "deadlock",
        means: "some wait for each other, and nothing can ever help them\n    `waiting` tells who waits for whom, and names a ring",
    },
    Term {
        word: "done",
        means: "the circuit has ended; at most the environment waits at its ports",
    },
    Term {
        word: "environment",
        means: "what is outside: it gives what the stimulus has, and takes what comes out",
    },
    Term {
        word: "event",
        means: "a step as `ready` and `live` write it: what it does, and its places\n    `meet a 5 /1.0.0 /0.0/0`: 5 goes over a, from the first place to the other",
    },
    Term {
        word: "held",
        means: "it sent or synced, and opened an arm: it stays there until the arm ends\n    `waiting` tells behind what it is held, the step `close` lets it go on",
    },
    Term {
        word: "idle",
        means: "the branch has no step now: it waits, has ended, or there is no such branch\n    `waiting` tells who waits for whom",
    },
    Term {
        word: "meet",
        means: "a step: a value goes over a channel, from who sends to who receives\n    `meet a 5 /1.0.0 /0.0/0`: 5 goes over a, from the first place to the other",
    },
    Term {
        word: "notions",
        means: "address, arm, assign, branch, breakpoint, channel, close, deadlock, done,\n    environment, event, held, idle, meet, open, place, port, refused, ring,\n    select, stimulus, stopped, stuck, sync, test, ticket, turn",
    },
    Term {
        word: "open",
        means: "a step: who sends or syncs opens an arm, and is held until the arm ends\n    `open a 1 0 /1.0.0 /0.0`: a opens arm 0 with the value 1; `-` is no value",
    },
    Term {
        word: "place",
        means: "where a step is taken, the last word of it in `ready`: /0 is the body\n    behind `.` the part of a sequence or the turn of a loop, behind `/` the side",
    },
    Term {
        word: "port",
        means: "a channel to the environment; `why X` tells the last step on port X",
    },
    Term {
        word: "refused",
        means: "what was asked is not done, and all stays as it is; the number says why\n    `balsadbg explain 24`, outside of the shell, tells all of number 24",
    },
    Term {
        word: "ring",
        means: "each waits for the next, and the last for the first: a deadlock\n    `waiting` lists it",
    },
    Term {
        word: "select",
        means: "a choice: the arm is opened whose partner is there\n    it promises that no two are ready at once; where two are, `ready` says so",
    },
    Term {
        word: "stimulus",
        means: "the file that says what comes in at each input port, in order",
    },
    Term {
        word: "stopped",
        means: "the next step of the branch is on a line that has a breakpoint\n    `clear LINE` takes it off, `ready` and a number take the step",
    },
    Term {
        word: "stuck",
        means: "no step can be taken, though not all is done, and no input helps\n    `waiting` tells who waits for whom, `back` takes the newest step back",
    },
    Term {
        word: "sync",
        means: "a step: both sides of a channel without data are there\n    `sync s /0.0 /1.0.0`: they meet on s, at these places",
    },
    Term {
        word: "test",
        means: "a step: an `if`, a `case` or a `loop while` tests, and takes an arm or none\n    `test 0 /0.1.0`: arm 0; `test none /0.1.0`: no arm",
    },
    Term {
        word: "ticket",
        means: "the number of a step, which it keeps; one taken anew gets a new one",
    },
    Term {
        word: "turn",
        means: "a loop begins its body once more",
    },
];

/// The notion of this word, in small letters or large ones.
pub(crate) fn term_of(word: &[u8]) -> Option<Term> {
    for term in &TERMS {
        if term.word.as_bytes().eq_ignore_ascii_case(word) {
            return Some(*term);
        }
    }
    None
}

impl Term {
    /// Adds what it is.
    pub(crate) fn add_to(&self, text: &mut Text) {
        text.add(b"  ");
        text.add(self.word.as_bytes());
        text.add(b"\n    ");
        text.add(self.means.as_bytes());
        text.add(b"\n");
    }
}
