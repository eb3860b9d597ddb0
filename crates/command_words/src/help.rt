//! The texts of `--help` and `--version`.

use refusal_pages::refusal_lines;

pub const VERSION: &str = "0.1.0";

pub const BALSADBG: &str = "\
A debugger for Balsa that takes back any step, in any order, as long as nothing
that depends on it is left";

pub const BALSADBG_LONG: &str = "\
A debugger for Balsa that takes back any step, in any order, as long as nothing
that depends on it is left.

Begin with a circuit that takes a value at the port i and gives it on at the
port o, what comes in at its ports, and a script of steps forth and back:

  balsadbg check examples/one.balsa
  balsadbg debug examples/one.balsa examples/one.stimulus < examples/one.script

The lines of a script can be typed by hand just as well, with Ctrl-D behind the
last. `balsadbg debug --help` explains them. `shell` takes them too, answers in
plain words, and no mistake ends it.

Where a description is refused, `check --explain` shows the place and says what
helps. Where a run stands still, `waiting` tells who waits for whom; where a
value is wrong, `why` tells the steps that led to it; `picture` draws the run.
`dap` serves an editor.";

pub const FILE: &str = "The description, a text of Balsa";

pub const STIMULUS: &str = "\
What comes in at the ports of the last procedure: a line
`i = 5 7` for an input port, `s * 3` for a sync port, and none
for an output port";

pub const EXPLAIN_REFUSAL: &str = "\
Where the whole run is refused, tell it in words as well:
the place, the line of the text with a mark under it, what
is wrong there, and what helps. `refused N` as the answer
of a script line stays as it is";

pub const CHECK: &str = "Say whether a description is accepted";

pub const CHECK_LONG: &str = "\
Say whether a description is accepted. If it is, the answer is `accepted`. If
not, standard error gets the line `balsadbg: refused N ..` with one of the
numbers below and, where a byte of FILE is meant, that byte.

Example:
  balsadbg check examples/buffer.balsa

With --explain the place is shown, and what helps:
  balsadbg check --explain examples/refused/two_writers.balsa";

pub const DEBUG: &str = "Step a description forwards and backwards, as a script says";

pub const DEBUG_LONG: &str = "\
Step a description forwards and backwards, as a script says. It comes from
standard input, and each line is answered as soon as it is read; lines that come
together, as from a file, may have their answers together:

  ready           list the steps that can be taken now. The last word of each is
                  its place; behind `sync` it is the first of the two. `open`
                  has its arm before the places
  step PLACE      take the step that waits at this place: `step TICKET EVENT`
  step PLACE ARM  the same where one of several arms can be taken, from 0
  live            list the steps that are taken and not taken back
  value X         tell the value of the variable X
  undo TICKET     take this step back: `undone TICKET EVENT`. Later steps stay,
                  as long as none of them depends on it
  consequences TICKET
                  tell this step and all that depend on it, by their tickets
  roll TICKET     take all of those back: `rolled COUNT`
  blame X         tell which step wrote the variable X last: `blame TICKET`
  rollvalue X     take that step back, with all that depend on it
  branch N        take the first step of branch N that can be taken now and is
                  on no line with a breakpoint: `step TICKET EVENT`.
                  `stopped LINE` where all are on such lines, `idle` where there
                  is none, or no branch N
  break LINE      set a breakpoint on this line of FILE, from 1: `ok`. A meeting
                  is on the line of its receive (of two syncs, of the first), so
                  a line with a send alone stops nothing
  clear LINE      take it away: `ok`
  session N       go on as session N, 0 to 15. All sessions step one run; each
                  has breakpoints of its own. The session is 0 at first
  trace           print the trace of the live steps, which `replay` takes again:
                  the same bytes in whichever order independent steps were taken
  view            print FILE with marks: `>` where a step can be taken, `*` for
                  a breakpoint, `!` for a select that could take several arms.
                  What the environment takes at an output port is on no line

A line that is none of these ends the run, and its steps are lost (copy what
`trace` prints before): there are no comments, no prompt, no `help`, and no
`quit`, which is Ctrl-D; an arrow key ends the run too. `tee my.script |
balsadbg debug ..` keeps what you type.

A place is written like /0.1.0. /0 is the body of the last procedure, and /1,
/2 and so on are the environment at its ports. Behind that, .N counts what comes
one after the other, and /N the branches of ||, both from 0. A meeting is
stepped at its receiver. The branches of `branch` are those of the body where it
is a ||, else the body is branch 0; the environment's come behind them.

Example, with the lines that are typed behind `>`, which is not printed:
  balsadbg debug examples/one.balsa examples/one.stimulus
  > step /0.0
  step 1 meet i 5 /1.0.0 /0.0
  > value x
  value x 5
  > undo 1
  undone 1 meet i 5 /1.0.0 /0.0";

pub const TRACE: &str = "The trace, as the script line `trace` answers it";

pub const REPLAY: &str = "Take the steps of a trace again, and list them";

pub const REPLAY_LONG: &str = "\
Take the steps of a trace again, in its order, and list them with new tickets
from 1, as the script line `live` does. A trace is what the script line `trace`
answers: the line `balsadbg trace 2`, and for each step that is live a line
`step PLACE ARM`, always the one with the least place of those that wait for
none that is left. Behind the line `balsadbg trace 1`, of older traces, the
steps may stand in any order.

Example:
  balsadbg replay examples/one.balsa examples/one.stimulus examples/one.trace

To go on from a trace, give its steps to `debug`, with more lines behind them:
  (tail -n +2 examples/one.trace; echo 'value x') |
    balsadbg debug examples/one.balsa examples/one.stimulus";

pub const WORKERS: &str = "How many workers there are, 1 to 16";

pub const TURNS: &str = "How many turns each worker takes, 0 to 1000000";

pub const WORK: &str = "Let workers step a description side by side, and count the steps";

pub const WORK_LONG: &str = "\
Let workers step a description side by side, and count the steps. Each worker is
a thread. In a turn it takes the number of a branch from a queue, or 0 where
that is empty, and takes the first step of that branch that can be taken now, as
the script line `branch` does; where there is none, the turn is idle. Which
worker takes which step is left to chance. The answer has two lines: how many
turns were steps, and how many steps are live in the end. It does not say why no
more were.

Example:
  balsadbg work examples/one.balsa examples/one.stimulus --workers 2 --turns 9

It answers:
  stepped 2
  live 2";

pub const SHELL: &str = "Step a description by hand, with answers in plain words";

pub const SHELL_LONG: &str = "\
Step a description by hand: a session of lines, each answered in plain words. It
begins at the end of a trace where one is named. All lines of a script work and
have their own answer first; `ready` numbers what can be stepped, and a number
takes it; `help` lists what else can be typed. No mistake ends the session:
`quit` or Ctrl-D does. Lines from a pipe are answered as typed ones are.

Example:
  balsadbg shell examples/adder.balsa examples/adder.stimulus";

pub const NUMBER: &str = "The number behind `refused`";

pub const EXPLAIN: &str = "Tell what a refusal means";

pub const EXPLAIN_LONG: &str = "\
Tell what a refusal means: what stands behind its number, an example, and what
it mostly comes from. N is the number behind `refused`, of the answer to a
script line too.

Example:
  balsadbg explain 15

It answers:
  refused 15 byte: a variable in two branches
  ..";

pub const NO_REFUSAL: &str = "\
no refusal has this number. Refusals have the numbers 1 to 17, 21 to 28,
31 to 34, 41, 42, 51, 61, 101 to 111 and 113";

pub const EXPLAIN_REFUSALS: &str = "\
Refusals. The line `balsadbg: refused N` on standard error ends a run with
status 1:

   1  memory is used up
  42  writing the answers failed

A command line that cannot be read, also one with a number that no refusal has,
ends with status 2. All else ends with status 0.";

pub const DAP: &str = "Serve an editor, by the Debug Adapter Protocol";

pub const DAP_LONG: &str = "\
Serve an editor over standard input and output, by the Debug Adapter Protocol:
branches are its threads, and each step of a thread can be taken back. An editor
starts it; docs/guide/editors.md has the settings of each.

Example of what an editor runs:
  balsadbg dap";

pub const DAP_REFUSALS: &str = "\
Refusals. The line `balsadbg: refused N` on standard error ends a run with
status 1:

   1  memory is used up
  41  reading standard input failed
  42  writing the answers failed

What is wrong with a description or a request is told to the editor. A command
line that cannot be read ends with status 2. All else ends with status 0.";

pub const OUTLINE: &str = "Tell which branches, variables and channels a description has";

pub const OUTLINE_LONG: &str = "\
Tell which branches, variables and channels a description has, by the numbers
and names that lines of a script and answers use: `branch 2` means the branch
with the number 2. Calls are replaced by the bodies of their procedures: `2:x`
is the x of the second call, which is told with its place, in a loop with that
of the first turn. A line of a branch says what it does on a channel. A refusal
is told in words too.

Example:
  balsadbg outline examples/fib_ring.balsa

It answers:
  branches 3
    0 /0/0 line 9, 1:keeper
      sends c line 11
      receives n line 12
    1 /0/1 line 19, 2:adder
      opens arm 0 c line 20
      sends n line 21
      sends o line 21
    2 /1 environment
      receives o
  variables 2
    1:b 8 bits line 7
    2:a 8 bits line 17
  channels 3
    o 8 bits line 27
      sends, branch 1 line 21
      receives, branch 2
    c 8 bits line 28
      sends, branch 0 line 11
      opens arm 0, branch 1 line 20
    n 8 bits line 28
      receives, branch 0 line 12
      sends, branch 1 line 21
  calls 2
    1:keeper /0/0 line 30
    2:adder /0/1 line 30
  enumerations 0";

pub const WAITING: &str = "Tell who waits behind a trace, on what and for whom";

pub const WAITING_LONG: &str = "\
Take the steps of a trace again, and tell who waits behind them: `goes on` where
a step can be taken, which are told as `ready` does; `done` where none can and
nothing of the circuit is left; `out of input` where what is left waits for want
of more in the stimulus; `stuck` where it waits for something else, or halts.
Then comes each end of a channel that waits, with its place, its line, and the
place behind which the end that it waits for stands, and on which line. Where
each of some waits for the next, they are told as a ring. Before each place
stands its branch, by the number that `branch` takes; `outline` names them. A
refusal is told in words too.

A trace is a file with the steps of a run, as the script line `trace` answers.
This takes up to 100 steps, and writes one:
  printf 'run 100\\nsave TRACE\\n' | balsadbg shell FILE STIMULUS

Example:
  balsadbg waiting examples/mutex.balsa examples/mutex.stimulus \\
    examples/mutex.trace

It answers, with its wide lines cut in two here:
  stuck
  waiting 3
    branch 0 /0/0.1.0.1 line 19: is held on lock_a, behind branch 2 /0/2.1.1,
      for line 9
    branch 1 /0/1.1.0.0 line 19: syncs on lock_b, behind branch 2 /0/2.1,
      for line 9
    branch 2 /0/2.1.1.0 line 9: syncs on unlock_a, behind branch 0 /0/0.1.0,
      for line 21
  ring 2
    branch 0 /0/0.1.0.1
    branch 2 /0/2.1.1.0";

pub const SUBJECT: &str = "The name of a variable, or the number of a step of the trace";

pub const ALL: &str = "Tell the steps that carried no value too";

pub const WHY: &str = "Tell why a variable has its value, or why a step could be taken";

pub const WHY_LONG: &str = "\
Take the steps of a trace again, and tell the steps that led to the value of the
variable X, or to the step with the number X: each with its number, its line,
what it carried or wrote, what it read and the step that wrote that, and behind
`after` the steps just before it. Steps are numbered from 1 as they stand in the
trace, so as `replay` lists them; tickets of the session may be others. An
output port has no value: ask for it by the number of the step that carried what
came out. A refusal is told in words too. A trace is what the script line
`trace` answers.

Example:
  balsadbg why examples/one.balsa examples/one.stimulus examples/one.trace x

It answers:
  x is 5, written by step 1
    1 line 7: i carries 5 into x";

pub const SVG: &str = "Write a drawing for a document (SVG)";

pub const VCD: &str = "Write waves, as GTKWave shows them (a value change dump)";

pub const JSON: &str = "Write the data of the page alone, as one JSON value";

pub const EVENT: &str = "With --svg: mark causes and consequences of the step T";

pub const QUIET: &str = "With --svg: leave out turns of loops and tests";

pub const PICTURE: &str = "Draw the run that a trace is";

pub const PICTURE_LONG: &str = "\
Draw the run that a trace is, with time going down and a column for each branch:
a page for a browser, which needs no other file. It shows what led to the step
under the pointer, and what came of it. Steps are numbered from 1 as they stand
in the trace. --svg, --vcd and --json exclude one another; --event and --quiet
go with --svg. A refusal is told in words too.

Examples:
  balsadbg picture examples/adder.balsa examples/adder.stimulus \\
    examples/adder.trace > adder.html
  balsadbg picture examples/adder.balsa examples/adder.stimulus \\
    examples/adder.trace --svg --event 3 > adder.svg";

pub const TWO_FORMS: &str = "--svg, --vcd and --json exclude one another";

pub const NO_STEP: &str =
    "--event takes the number of a step, as 12: below 2^64, with no 0 before it";

pub const NO_DRAWING: &str = "--event and --quiet go with --svg";

/// The lines of refusals with what stands around them.
macro_rules! refusals {
    ([$($line:literal)*]) => {
        concat!(
            "Refusals. The line `balsadbg: refused N ..` on standard error ends a run with\n",
            "status 1. Behind most numbers stands the byte of FILE that is meant, from 0:\n",
            "\n",
            $($line,)*
            "\n",
            "`balsadbg explain N` shows an example and the usual causes of one. A command\n",
            "line that cannot be read ends with status 2. All else ends with status 0."
        )
    };
}

/// The lines of a script's refusals behind others, with more behind them.
macro_rules! refusals_of_scripts {
    ([$($before:tt)*] [$($behind:tt)*]) => {
        refusal_lines!(
            [
                $($before)*
                42 51 61
                "\n"
                "`refused N` as the answer of a script line says that it cannot be done now. Then\n"
                "nothing has changed, and the script goes on:\n"
                "\n"
                1 21 22 23 24 25 26 27 28
                $($behind)*
            ]
            []
            refusals
        )
    };
}

/// The lines of refusals of a command over a trace: of one that is its own, and of the files.
macro_rules! refusals_over_traces {
    ([$($own:literal)*] $files:literal) => {
        refusal_lines!(
            [
                1
                "2-17  FILE is refused: `balsadbg check --help` has a line on each\n"
                $($own)*
                31 32 33 34
                $files
                42 51
            ]
            []
            refusals
        )
    };
}

pub const REFUSALS: &str = refusals_of_scripts!(
    [1 2 3 4 5 6 7 8 9 10 11 12 13 14 15 16 17 31 32 33 34 41]
    [
        "\n"
        "A request of an editor to `balsadbg dap` is answered with one of those above, or\n"
        "with one of these. Nothing has changed then:\n"
        "\n"
        101 102 103 104 105 106 107 108 109 110 111 113
    ]
);

pub const CHECK_REFUSALS: &str = refusal_lines!(
    [
        1 2 3 4 5 6 7 8 9 10 11 12 13 14 15 16 17
        "  41  FILE is missing, or reading it failed\n"
        42
    ]
    []
    refusals
);

pub const OUTLINE_REFUSALS: &str = refusal_lines!(
    [
        1
        "2-17  FILE is refused: `balsadbg check --help` has a line on each\n"
        "  41  FILE is missing, or reading it failed\n"
        42
    ]
    []
    refusals
);

pub const DEBUG_REFUSALS: &str = refusals_of_scripts!(
    [
        1
        "2-17  FILE is refused: `balsadbg check --help` has a line on each\n"
        "  41  FILE or STIMULUS is missing, or reading it or the script failed\n"
    ]
    []
);

pub const WORK_REFUSALS: &str = refusal_lines!(
    [
        1
        "2-17  FILE is refused: `balsadbg check --help` has a line on each\n"
        "  41  FILE or STIMULUS is missing, or reading it failed\n"
        42 51
    ]
    []
    refusals
);

pub const SHELL_REFUSALS: &str =
    refusals_over_traces!([] "  41  a file is missing, or reading it or the lines failed\n");

pub const TRACE_REFUSALS: &str =
    refusals_over_traces!([] "  41  FILE, STIMULUS or TRACE is missing, or reading it failed\n");

pub const WHY_REFUSALS: &str = refusals_over_traces!(
    [
        "  23  X is the number of no step of TRACE\n"
        "  25  X is the name of no variable, or of one that no step of TRACE wrote\n"
    ]
    "  41  FILE, STIMULUS or TRACE is missing, or reading it failed\n"
);

pub const PICTURE_REFUSALS: &str = refusals_over_traces!(
    ["  23  with --event: TRACE has no step of this number\n"]
    "  41  FILE, STIMULUS or TRACE is missing, or reading it failed\n"
);
