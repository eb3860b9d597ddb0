// Pages of what is found in names, kinds and widths.

use crate::Page;

pub static UNKNOWN_NAME: Page = Page {
    number: 7,
    field: "byte",
    name: "an unknown name",
    meaning: "Nothing that is visible here has this name.",
    source: "procedure p is begin q () end",
    told: "                     ^   refused 7 21",
    causes: "\
a slip of the pen; `byte` without `type byte is 8 bits`; large and
small letters exchanged; a procedure that is called in its own body or before
its `end`; a local of another procedure.",
};

pub static NAME_TWICE: Page = Page {
    number: 8,
    field: "byte",
    name: "a name twice",
    meaning: "A name that is visible is declared again.",
    source: "procedure p is variable x, x : 8 bits begin halt end",
    told: "                           ^     refused 8 27",
    causes: "\
a local with the name of a type, of an element of an enumeration,
or of a port.",
};

pub static WRONG_KIND: Page = Page {
    number: 9,
    field: "byte",
    name: "the wrong kind",
    meaning: "The name is there and is something else.",
    source: "procedure p (input i : 8 bits) is begin i <- 1 end",
    told: "                                        ^   refused 9 40",
    causes: "\
sending on an input port, receiving from an output port, a port or
channel behind `->`, where a variable must stand (`i -> x ; o <- x` hands a
value on), `->` on a sync, a channel read as a value outside its arm.",
};

pub static TOO_WIDE: Page = Page {
    number: 10,
    field: "byte",
    name: "too wide",
    meaning: "\
A width is not from 1 to 64, a sum would need 65 bits, or a value is wider
than what takes it.",
    source: "procedure p is variable x : 8 bits begin x := 255 + 1 end",
    told: "                                              ^   refused 10 46",
    causes: "\
a sum is one bit wider than its operands. A cast cuts it:
`(x + 1 as 8 bits)`.",
};

pub static GUARD_NOT_ONE_BIT: Page = Page {
    number: 11,
    field: "byte",
    name: "a guard is not one bit",
    meaning: "\
What stands behind `if`, `while` or a `|` of an `if` has to be one bit wide.",
    source: "procedure p is begin if 2 then halt end end",
    told: "                        ^        refused 11 24",
    causes: "`if x then` with a wide `x`, for `if x /= 0 then`.",
};

pub static BAD_ARM: Page = Page {
    number: 12,
    field: "byte",
    name: "a bad arm",
    meaning: "\
A `case` label stands twice, however it is spelled, or is wider than the
expression; or a channel stands in two arms of one `select` or `arbitrate`.",
    source: "procedure p is begin case 1 of 0 then halt | 0 then halt end end",
    told: "                                             ^   refused 12 45",
    causes: "\
a number and the element of an enumeration that has it as two
labels, or a width that was made smaller.",
};

pub static PORT_MISMATCH: Page = Page {
    number: 13,
    field: "byte",
    name: "a call does not fit",
    meaning: "\
The arguments differ from the ports in number, direction or width, or one
channel stands twice. The byte is that of the called name.",
    source: "\
procedure q (sync s) is begin sync s end
procedure p is begin q () end",
    told: "\
\x20                    ^            refused 13 62",
    causes: "\
an argument that was left out, two arguments that were exchanged,
or a channel that is a bit wider than the port.",
};

pub static ENCLOSED_TWICE: Page = Page {
    number: 17,
    field: "byte",
    name: "enclosed twice",
    meaning: "\
Inside an arm that is open on a channel, its name is the value that was
received; any other use of it is refused. A sync carries no value, so inside
its arm each use is.",
    source: "\
procedure p (input i : 8 bits) is variable x : 8 bits begin
i -> then i -> x end end",
    told: "\
\x20         ^                       refused 17 70",
    causes: "\
receiving once more inside the arm, where the name itself is
meant, or reading a sync as a value.",
};
