// Pages of what a line of a script is answered with, where it cannot be done.

use crate::Page;

pub static NOT_READY: Page = Page {
    number: 21,
    field: "",
    name: "not ready",
    meaning: "Nothing waits at this place with this arm.",
    source: "",
    told: "\
> step /2.0
refused 21",
    causes: "\
the partner of a meeting is not there yet; the place of the other
partner was given (a meeting is stepped at its receiver, and two syncs at the
lesser place); the arm of an `open` was left out, and arm 0 does not wait; the
step is made already.",
};

pub static HISTORY_FULL: Page = Page {
    number: 22,
    field: "",
    name: "full",
    meaning: "65,536 steps are live. Undo or roll back to make room.",
    source: "procedure p is begin loop continue end end",
    told: "\
> branch 0
step 65536 turn /0.131070
> branch 0
refused 22",
    causes: "a `loop` that is left to run on.",
};

pub static NO_SUCH_EVENT: Page = Page {
    number: 23,
    field: "",
    name: "no such step",
    meaning: "\
No live step has this ticket: it was taken back, or never given. Tickets are
not used again. Where `balsadbg why` ends with 23, or `balsadbg picture` with
`--event`, the trace has no step of this number.",
    source: "",
    told: "\
> undo 1
refused 23",
    causes: "\
a ticket that was kept over an undo, where the step that is
taken once more has a new one, or the ticket of another run.",
};

pub static NEEDED_BY: Page = Page {
    number: 24,
    field: "ticket",
    name: "needed",
    meaning: "\
A live step depends on this one; the least of them is named. Take that one
back first, or take this one and all that depend on it back by `roll T`.",
    source: "",
    told: "\
> step /0.0
step 1 meet i 5 /1.0.0 /0.0
> step /2.0
step 2 meet o 5 /0.1.0 /2.0
> undo 1
refused 24 2",
    causes: "taking back a cause before its consequences.",
};

pub static NEVER_WRITTEN: Page = Page {
    number: 25,
    field: "",
    name: "never written",
    meaning: "\
No live step wrote this variable, so there is nothing to blame or to roll
back. Where `balsadbg why` ends with 25, no step of the trace wrote it, or no
variable has the name.",
    source: "",
    told: "\
> blame x
refused 25",
    causes: "\
asking before the first write, or behind its undo. A variable
begins as 0, which no step wrote.",
};

pub static SPENT: Page = Page {
    number: 26,
    field: "",
    name: "spent",
    meaning: "\
2^63 tickets are given out, or 2^63 calls of a shared execution are recorded.
A call of a shared execution that is refused so is not recorded.",
    source: "",
    told: "\
> step /0.0
refused 26",
    causes: "\
none that anyone can wait for: at a million steps in a second the
tickets last for 290,000 years.",
};

pub static BREAKS_FULL: Page = Page {
    number: 27,
    field: "",
    name: "breakpoints are full",
    meaning: "\
The session has 64 breakpoints, and this line is none of these. Clear one, or
set it in another session; `view` shows them with `*`.",
    source: "",
    told: "\
> break 65
refused 27",
    causes: "\
a script that sets one on each line, or breakpoints of an earlier
question that were not cleared.",
};

pub static NO_SUCH_LINE: Page = Page {
    number: 28,
    field: "",
    name: "no such line",
    meaning: "\
No command begins on this line, so a breakpoint there would never stop
anything. (The reverse does not hold: on a line with a send, `continue`,
`halt` or the later of two syncs alone, or where a sequence or parallel begins
with a call, `break` answers `ok` and stops nothing. A meeting is on the line
of its receive or first sync, and what a call does is on the lines of its
procedure.)",
    source: "\
procedure p is begin
\x20 loop
\x20   continue
\x20 end
end",
    told: "\
> break 1
refused 28
> break 2
ok
> branch 0
stopped 2",
    causes: "\
a line with `end`, `else` or `[` alone, a blank line, a line that
only goes on with a command or has a call and nothing else with which no
sequence or parallel begins, a procedure that the last one does not reach, or a
line past the last. Lines count from 1.",
};
