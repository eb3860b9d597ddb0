// Pages of what is found in the whole system.

use crate::Page;

pub static TOO_MANY_NODES: Page = Page {
    number: 14,
    field: "",
    name: "too large",
    meaning: "\
Once each call is replaced by the body of its procedure there are more than
16,384 nodes, or a command inside more than 1,024 others. The number does not
tell which.",
    source: "\
procedure a is begin halt;halt;halt;halt;halt;halt;halt;halt;halt;halt end
procedure b is begin a();a();a();a();a();a();a();a();a();a();a();a() end
procedure c is begin b();b();b();b();b();b();b();b();b();b();b();b() end
procedure d is begin c();c();c();c();c();c();c();c();c();c();c();c() end",
    told: "refused 14",
    causes: "\
procedures that call others twice, over many levels; a stimulus
with more than 16,000 values; a long text: `x := (x + 1 as byte)` is 5 nodes,
so some 3,270 such commands fit. Commands nested near the limit of 1,024 want
some 3 MB of stack: with less (`ulimit -s`, a small container) the program ends
with a segmentation fault and no refusal.",
};

pub static SHARED_VARIABLE: Page = Page {
    number: 15,
    field: "byte",
    name: "a variable in two branches",
    meaning: "\
A variable that is not declared shared is written in one branch of `||` and
read or written in another. The byte is the first use that takes part.",
    source: "procedure p is variable x, y : 8 bits begin x := 1 || y := x end",
    told: "                                            ^   refused 15 44",
    causes: "\
a result handed over in a variable where a channel should stand;
remember that `||` binds tighter than `;`. Send the value over a channel; or,
where the branches are meant to race, declare the variable shared, and then
which of them came first decides what it holds and which steps have to be taken
back before which.",
};

pub static SHARED_CHANNEL: Page = Page {
    number: 16,
    field: "byte",
    name: "a shared channel",
    meaning: "\
Two senders, two receivers, or three syncs use a channel at one time. A port's
environment is one of them. The byte is that of the name in its declaration.",
    source: "procedure p is sync s begin sync s || sync s || sync s end",
    told: "                    ^            refused 16 20",
    causes: "a channel that fans out or in; `arbitrate` joins two senders.",
};
