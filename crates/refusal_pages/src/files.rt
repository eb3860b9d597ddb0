// Pages of traces, files, stimuli and scripts that cannot be read.

use crate::Page;

pub static BAD_HEADER: Page = Page {
    number: 31,
    field: "",
    name: "no header",
    meaning: "\
The first line of the trace is not `balsadbg trace 2` or, of an older trace,
`balsadbg trace 1`.",
    source: "",
    told: "\
balsadbg trace 3
^                                refused 31",
    causes: "\
another file, line ends from Windows, or what stood before
`balsadbg trace 2` in a transcript.",
};

pub static BAD_LINE: Page = Page {
    number: 32,
    field: "line",
    name: "a bad line of a trace",
    meaning: "The line has another form than a step, or no end.",
    source: "",
    told: "\
balsadbg trace 2
step /0.0/0
\x20          ^                      refused 32 2",
    causes: "\
a file that is cut off inside a line (a cut between two lines is
not seen), line ends from Windows where the first line alone is right, an empty
line at the end, or an edit by hand.",
};

pub static NOT_A_STEP: Page = Page {
    number: 33,
    field: "line",
    name: "not a step",
    meaning: "\
The step of this line cannot be taken once those of the lines before are.",
    source: "",
    told: "\
balsadbg trace 2
step /3.0 0
^                                refused 33 2",
    causes: "\
the trace of another description or stimulus, or lines that were
taken out or exchanged.",
};

pub static NOT_CANONICAL: Page = Page {
    number: 34,
    field: "line",
    name: "not in canonical order",
    meaning: "\
All steps can be taken, but behind `balsadbg trace 2` each event has one
place, and on this line another event is due. Write `balsadbg trace 1` in the
first line to load the steps as they stand; `trace` then tells them in
canonical order. That a trace loads does not show that it is as it was saved:
a step that is moved past one with which it races for a shared variable may
make another run that loads. `debug` never ends with 34.",
    source: "",
    told: "\
balsadbg trace 2
step /0.0/1 0
^                                refused 34 2
step /0.0/0 0",
    causes: "steps put in or moved by hand.",
};

pub static READ_FAILED: Page = Page {
    number: 41,
    field: "",
    name: "reading failed",
    meaning: "\
A file is missing or is a folder, or may not be read, or standard input broke
off. The lines before are answered. FILE is read first and STIMULUS behind it,
before the text of either is looked at, and TRACE once both are accepted. With
answers out it was the script. `work` reads FILE and STIMULUS likewise, and
prints nothing before its workers are done.",
    source: "",
    told: "\
$ balsadbg check no-such.balsa
balsadbg: refused 41",
    causes: "a path that is meant from another folder.",
};

pub static WRITE_FAILED: Page = Page {
    number: 42,
    field: "",
    name: "writing failed",
    meaning: "Standard output took no more; a beginning of the answers is out.",
    source: "",
    told: "\
$ balsadbg check one.balsa > /dev/full
balsadbg: refused 42",
    causes: "a full disk, or a pipe that the other side has closed.",
};

pub static BAD_STIMULUS: Page = Page {
    number: 51,
    field: "line",
    name: "a bad line of a stimulus",
    meaning: "\
The line has another form, names no port of the last procedure, a port of
another kind or one that was named before, or has a value that is too great
for its port.",
    source: "",
    told: "\
i = 5
i = 7
^                                refused 51 2",
    causes: "\
a second line for one port, where all its values belong on one
(`i = 5 7`); a name that is that of a port in another procedure than the last;
a value for an output port; a blank at the end, `i=5` without blanks, `i = 05`,
a comma between values, a comment, a name in place of a number (`s = idle`), a
script or a trace given as STIMULUS; line ends from Windows, which are refused
at line 1.",
};

pub static BAD_COMMAND: Page = Page {
    number: 61,
    field: "line",
    name: "a bad line of a script",
    meaning: "\
The line has another form, a number that is too great for what it counts, or
the name of no variable (a port or a channel is none). The answers before it
are out; the run ends.",
    source: "",
    told: "\
> step 0.0
balsadbg: refused 61 1",
    causes: "\
two blanks, a blank or a tab in front or at the end, capital
letters, a comment, `help` or `quit`, an arrow key, a place without its first
`/`, `session 16`, a command without its number, `undo 01`, a variable of a
called procedure without its number (`1:x`), line ends from Windows. Since the
run ends, keep long sessions in a file.",
};
