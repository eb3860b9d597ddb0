// Pages of what a request of an editor is refused with. The number is the `id` of the error in its response.

use crate::Page;

pub static UNKNOWN_REQUEST: Page = Page {
    number: 101,
    field: "",
    name: "an unknown request",
    meaning: "\
The adapter of `balsadbg dap` does not know a request of this name. Nothing has
changed, and the session goes on.",
    source: "",
    told: "\
> Next {\"threadId\":1}
refused 101: balsadbg does not know this request",
    causes: "\
a client that asks for what the answer to `initialize` does not
offer, or a name that is written otherwise: capital letters count.",
};

pub static NOT_INITIALIZED: Page = Page {
    number: 102,
    field: "",
    name: "not begun",
    meaning: "\
Before `initialize` only `disconnect` is answered. Nothing has changed.",
    source: "",
    told: "\
> launch {\"program\":\"one.balsa\"}
refused 102: `initialize` comes first",
    causes: "a client of one's own that begins with `launch`.",
};

pub static NOTHING_LAUNCHED: Page = Page {
    number: 103,
    field: "",
    name: "nothing is launched",
    meaning: "\
The request asks about a run, and no source was launched, or its launch was
refused; or it would move a run that has not begun, or that is over. Nothing has
changed.",
    source: "",
    told: "\
> next {\"threadId\":1}
refused 103: nothing is launched yet",
    causes: "a `launch` that was refused: its own answer says why.",
};

pub static BAD_ARGUMENT: Page = Page {
    number: 104,
    field: "",
    name: "an argument is missing",
    meaning: "\
The request needs the argument that the answer names, as `threadId`, `frameId`,
`variablesReference` or `line`, and it is missing or no whole number from 0.
Nothing has changed.",
    source: "",
    told: "\
> next
refused 104: `threadId` is missing or no number",
    causes: "a client of one's own.",
};

pub static NO_THREAD: Page = Page {
    number: 105,
    field: "",
    name: "no such thread",
    meaning: "\
A thread is a branch. The answer to `threads` has the numbers of all. Nothing
has changed.",
    source: "",
    told: "\
> next {\"threadId\":9}
refused 105: there is no such thread",
    causes: "a number that was kept from a session on another source.",
};

pub static ONLY_PATHS: Page = Page {
    number: 106,
    field: "",
    name: "only paths",
    meaning: "\
`pathFormat` of `initialize` is `path`, or is left out. The client can ask once
more.",
    source: "",
    told: "\
> initialize {\"pathFormat\":\"uri\"}
refused 106: only paths are understood, no URIs",
    causes: "a client that names files by URIs alone.",
};

pub static LAUNCHED_ALREADY: Page = Page {
    number: 107,
    field: "",
    name: "launched already",
    meaning: "\
A session debugs one source, for one client, and its run begins once. What was
launched goes on, and has not changed. For another source begin another session.",
    source: "",
    told: "\
> launch {\"program\":\"one.balsa\"}
refused 107: a program is launched already",
    causes: "a client of one's own that sends `launch` twice.",
};

pub static NO_PROGRAM: Page = Page {
    number: 108,
    field: "",
    name: "no program is named",
    meaning: "\
`launch` needs `program`, the path of a Balsa source. Nothing is launched.",
    source: "",
    told: "\
> launch {\"stimulus\":\"one.stimulus\"}
refused 108: `program` is missing: the path of a Balsa source",
    causes: "\
settings of the editor without `program`, or with another name for
it.",
};

pub static NO_FRAME: Page = Page {
    number: 109,
    field: "",
    name: "no such frame",
    meaning: "\
A frame is a place at which a branch stands, or a call around such a place.
After each step that an editor asks for, frames are to be asked for anew. Nothing
has changed.",
    source: "",
    told: "\
> scopes {\"frameId\":32770}
refused 109: there is no such frame any more",
    causes: "a frame from before a step, or of another thread.",
};

pub static NO_VARIABLES: Page = Page {
    number: 110,
    field: "",
    name: "no such variables",
    meaning: "\
The answers to `scopes` and `variables` have the references. Nothing has
changed.",
    source: "",
    told: "\
> variables {\"variablesReference\":9}
refused 110: there are no variables with this reference",
    causes: "a reference that was kept from a session on another source.",
};

pub static NOTHING_REFUSED: Page = Page {
    number: 111,
    field: "",
    name: "nothing was refused",
    meaning: "\
`exceptionInfo` tells of the refusal at which the session stands, and it stands
at none: it has stopped at none, or moved since. Nothing has changed.",
    source: "",
    told: "\
> exceptionInfo {\"threadId\":1}
refused 111: nothing was refused",
    causes: "a client that asks where the reason of `stopped` was another one.",
};

pub static NO_ATTACHING: Page = Page {
    number: 113,
    field: "",
    name: "nothing to attach to",
    meaning: "\
A run lives in the debugger alone, so there is nothing to attach to. Use
`launch`.",
    source: "",
    told: "\
> attach {\"program\":\"one.balsa\"}
refused 113: there is nothing to attach to: `launch` starts the debugger on a source",
    causes: "settings of the editor with `\"request\": \"attach\"`.",
};
