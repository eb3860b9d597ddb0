// Pages of what no pass over names comes to: memory, words and form.

use crate::Page;

pub static MEMORY: Page = Page {
    number: 1,
    field: "",
    name: "memory",
    meaning: "\
The system gave no more memory. Nothing has changed, with one exception; a
smaller description, a shorter run, or more memory helps. The exception is a
session in a thread of its own: there the 1 may come after the call, where
there was no memory for the bytes of the answer, and what the call did stays
done.",
    source: "",
    told: "\
> branch 0
refused 1",
    causes: "\
a limit on memory (`ulimit -v`, a container), a long run, or other
programs that have taken what there was.",
};

pub static BAD_CHARACTER: Page = Page {
    number: 2,
    field: "byte",
    name: "a byte begins nothing",
    meaning: "Outside comments only names, numbers, signs and blanks may stand.",
    source: "procedure p @",
    told: "            ^            refused 2 12",
    causes: "\
`_` or `/` alone, a letter with an accent, a `\"`. Files from some
Windows editors begin with a byte order mark, which is `refused 2 0`: save
without it.",
};

pub static OPEN_COMMENT: Page = Page {
    number: 3,
    field: "byte",
    name: "an open comment",
    meaning: "A `(--` is never closed by `--)`. The outermost one is named.",
    source: "(-- (-- --)",
    told: "^            refused 3 0",
    causes: "\
`(--)`, which opens a comment and does not close it, or a comment
that was nested and closed once.",
};

pub static NUMBER_TOO_LARGE: Page = Page {
    number: 4,
    field: "byte",
    name: "a number is too large",
    meaning: "The number is above 18446744073709551615, which is 2^64 - 1.",
    source: "type t is 18446744073709551616 bits",
    told: "          ^            refused 4 10",
    causes: "a digit too many.",
};

pub static UNEXPECTED: Page = Page {
    number: 5,
    field: "byte",
    name: "this word cannot stand here",
    meaning: "\
With this word no description can go on, whatever follows. At the end of a
file, the byte is the file's length.",
    source: "procedure p is begin halt || end",
    told: "                             ^   refused 5 29",
    causes: "\
a missing `end` (the byte is then the word `procedure` behind the
one that lacks it, or the file's length: look back from there), a `;` before
`end`, `||` without a command behind it, `=` for `:=`, a comma between ports, a
reserved word as a name (`sync`, `input`), `while` without `loop`, a word in
capitals, an `arbitrate` with one arm, `shared` before `channel` or `sync`
(only variables are shared), a file that is cut off, or one whose lines end
with byte 13 alone, which is one comment from its first `--` on. `refused 5 0`
for a good source: FILE and STIMULUS are exchanged, or FILE is empty.",
};

pub static TOO_DEEP: Page = Page {
    number: 6,
    field: "byte",
    name: "too deep",
    meaning: "\
This word would open level 65. Brackets, `loop`, `if`, `case`, `select`,
`arbitrate`, `then` behind `->`, `(` in an expression and `not` open a level
each, and so does each operator until its expression ends.",
    source: "\
procedure p is begin [[[[[[[[[[[[[[[[[[[[[[[[[[[[[[[[
\x20 [[[[[[[[[[[[[[[[[[[[[[[[[[[[[[[[[",
    told: "                                  ^   refused 6 88",
    causes: "\
generated text, or a sum of more than 65 parts; a variable in
between helps.",
};
