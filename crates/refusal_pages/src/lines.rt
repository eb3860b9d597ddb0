/// The lines of refusals, as the lists of help have them.
///
/// `refusal_lines!([N ..] [] then)` hands those of these numbers to the macro `then`, in brackets; a text among the
/// numbers stands where it is.
#[macro_export]
macro_rules! refusal_lines {
    ([] $lines:tt $then:ident) => {
        $then!($lines)
    };
    ([1 $($more:tt)*] [$($line:literal)*] $then:ident) => {
        $crate::refusal_lines!([$($more)*] [$($line)* "   1  memory is used up\n"] $then)
    };
    ([2 $($more:tt)*] [$($line:literal)*] $then:ident) => {
        $crate::refusal_lines!([$($more)*] [$($line)* "   2  this byte begins no word, number or sign\n"] $then)
    };
    ([3 $($more:tt)*] [$($line:literal)*] $then:ident) => {
        $crate::refusal_lines!([$($more)*] [$($line)* "   3  this (-- is closed by no --)\n"] $then)
    };
    ([4 $($more:tt)*] [$($line:literal)*] $then:ident) => {
        $crate::refusal_lines!([$($more)*] [$($line)* "   4  this number is over 2^64 - 1\n"] $then)
    };
    ([5 $($more:tt)*] [$($line:literal)*] $then:ident) => {
        $crate::refusal_lines!([$($more)*] [$($line)* "   5  no description goes on with this word\n"] $then)
    };
    ([6 $($more:tt)*] [$($line:literal)*] $then:ident) => {
        $crate::refusal_lines!([$($more)*] [$($line)* "   6  this opens more than 64 levels\n"] $then)
    };
    ([7 $($more:tt)*] [$($line:literal)*] $then:ident) => {
        $crate::refusal_lines!([$($more)*] [$($line)* "   7  nothing visible has this name\n"] $then)
    };
    ([8 $($more:tt)*] [$($line:literal)*] $then:ident) => {
        $crate::refusal_lines!([$($more)*] [$($line)* "   8  this name is declared already\n"] $then)
    };
    ([9 $($more:tt)*] [$($line:literal)*] $then:ident) => {
        $crate::refusal_lines!([$($more)*] [$($line)* "   9  this name is that of another kind of thing\n"] $then)
    };
    ([10 $($more:tt)*] [$($line:literal)*] $then:ident) => {
        $crate::refusal_lines!([$($more)*] [$($line)*
            "  10  this is too wide: over 64 bits, or wider than what takes it\n"
        ] $then)
    };
    ([11 $($more:tt)*] [$($line:literal)*] $then:ident) => {
        $crate::refusal_lines!([$($more)*] [$($line)* "  11  this condition is not one bit wide\n"] $then)
    };
    ([12 $($more:tt)*] [$($line:literal)*] $then:ident) => {
        $crate::refusal_lines!([$($more)*] [$($line)*
            "  12  this label or channel stands in two arms, or the label is too wide\n"
        ] $then)
    };
    ([13 $($more:tt)*] [$($line:literal)*] $then:ident) => {
        $crate::refusal_lines!([$($more)*] [$($line)* "  13  the arguments of this call do not fit the ports\n"] $then)
    };
    ([14 $($more:tt)*] [$($line:literal)*] $then:ident) => {
        $crate::refusal_lines!([$($more)*] [$($line)*
            "  14  the system has over 16384 nodes, or a command inside over 1024 others\n"
        ] $then)
    };
    ([15 $($more:tt)*] [$($line:literal)*] $then:ident) => {
        $crate::refusal_lines!([$($more)*] [$($line)*
            "  15  this variable is written in one parallel branch and used in another\n"
        ] $then)
    };
    ([16 $($more:tt)*] [$($line:literal)*] $then:ident) => {
        $crate::refusal_lines!([$($more)*] [$($line)*
            "  16  this channel has two senders, two receivers or three syncs at a time\n"
        ] $then)
    };
    ([17 $($more:tt)*] [$($line:literal)*] $then:ident) => {
        $crate::refusal_lines!([$($more)*] [$($line)* "  17  this channel is open around this place\n"] $then)
    };
    ([21 $($more:tt)*] [$($line:literal)*] $then:ident) => {
        $crate::refusal_lines!([$($more)*] [$($line)* "  21  nothing waits at this place with this arm\n"] $then)
    };
    ([22 $($more:tt)*] [$($line:literal)*] $then:ident) => {
        $crate::refusal_lines!([$($more)*] [$($line)* "  22  65536 steps are live\n"] $then)
    };
    ([23 $($more:tt)*] [$($line:literal)*] $then:ident) => {
        $crate::refusal_lines!([$($more)*] [$($line)* "  23  no live step has this ticket\n"] $then)
    };
    ([24 $($more:tt)*] [$($line:literal)*] $then:ident) => {
        $crate::refusal_lines!([$($more)*] [$($line)*
            "  24  the step with the ticket that is named depends on this one\n"
        ] $then)
    };
    ([25 $($more:tt)*] [$($line:literal)*] $then:ident) => {
        $crate::refusal_lines!([$($more)*] [$($line)* "  25  no live step has written this variable\n"] $then)
    };
    ([26 $($more:tt)*] [$($line:literal)*] $then:ident) => {
        $crate::refusal_lines!([$($more)*] [$($line)* "  26  no ticket is left\n"] $then)
    };
    ([27 $($more:tt)*] [$($line:literal)*] $then:ident) => {
        $crate::refusal_lines!([$($more)*] [$($line)* "  27  this session has 64 breakpoints\n"] $then)
    };
    ([28 $($more:tt)*] [$($line:literal)*] $then:ident) => {
        $crate::refusal_lines!([$($more)*] [$($line)* "  28  no command begins on this line\n"] $then)
    };
    ([31 $($more:tt)*] [$($line:literal)*] $then:ident) => {
        $crate::refusal_lines!([$($more)*] [$($line)*
            "  31  TRACE does not begin with the line `balsadbg trace 2`, or with 1 for 2\n"
        ] $then)
    };
    ([32 $($more:tt)*] [$($line:literal)*] $then:ident) => {
        $crate::refusal_lines!([$($more)*] [$($line)*
            "  32  this line of TRACE, from 1, is no step, or has no end\n"
        ] $then)
    };
    ([33 $($more:tt)*] [$($line:literal)*] $then:ident) => {
        $crate::refusal_lines!([$($more)*] [$($line)*
            "  33  the step of this line of TRACE, from 1, cannot be taken there\n"
        ] $then)
    };
    ([34 $($more:tt)*] [$($line:literal)*] $then:ident) => {
        $crate::refusal_lines!([$($more)*] [$($line)*
            "  34  behind `balsadbg trace 2` another step comes before that of this line\n"
        ] $then)
    };
    ([41 $($more:tt)*] [$($line:literal)*] $then:ident) => {
        $crate::refusal_lines!([$($more)*] [$($line)*
            "  41  a file is missing, or reading it or the script failed\n"
        ] $then)
    };
    ([42 $($more:tt)*] [$($line:literal)*] $then:ident) => {
        $crate::refusal_lines!([$($more)*] [$($line)* "  42  writing the answers failed\n"] $then)
    };
    ([51 $($more:tt)*] [$($line:literal)*] $then:ident) => {
        $crate::refusal_lines!([$($more)*] [$($line)*
            "  51  this line of STIMULUS, from 1, fits no port, is a second one for a port,\n"
            "      or has another form (blanks, line ends)\n"
        ] $then)
    };
    ([61 $($more:tt)*] [$($line:literal)*] $then:ident) => {
        $crate::refusal_lines!([$($more)*] [$($line)*
            "  61  this line of the script, from 1, is none of its lines, or names no\n"
            "      variable (a port or a channel is none)\n"
        ] $then)
    };
    ([101 $($more:tt)*] [$($line:literal)*] $then:ident) => {
        $crate::refusal_lines!([$($more)*] [$($line)* " 101  the adapter does not know this request\n"] $then)
    };
    ([102 $($more:tt)*] [$($line:literal)*] $then:ident) => {
        $crate::refusal_lines!([$($more)*] [$($line)* " 102  `initialize` comes first\n"] $then)
    };
    ([103 $($more:tt)*] [$($line:literal)*] $then:ident) => {
        $crate::refusal_lines!([$($more)*] [$($line)* " 103  `launch` comes before this request\n"] $then)
    };
    ([104 $($more:tt)*] [$($line:literal)*] $then:ident) => {
        $crate::refusal_lines!([$($more)*] [$($line)* " 104  an argument of the request is missing or no number\n"] $then)
    };
    ([105 $($more:tt)*] [$($line:literal)*] $then:ident) => {
        $crate::refusal_lines!([$($more)*] [$($line)* " 105  there is no thread with this number\n"] $then)
    };
    ([106 $($more:tt)*] [$($line:literal)*] $then:ident) => {
        $crate::refusal_lines!([$($more)*] [$($line)*
            " 106  `initialize` asks for URIs, and only paths are understood\n"
        ] $then)
    };
    ([107 $($more:tt)*] [$($line:literal)*] $then:ident) => {
        $crate::refusal_lines!([$($more)*] [$($line)* " 107  a source is launched already\n"] $then)
    };
    ([108 $($more:tt)*] [$($line:literal)*] $then:ident) => {
        $crate::refusal_lines!([$($more)*] [$($line)*
            " 108  `program` is missing from `launch`: the path of a Balsa source\n"
        ] $then)
    };
    ([109 $($more:tt)*] [$($line:literal)*] $then:ident) => {
        $crate::refusal_lines!([$($more)*] [$($line)* " 109  there is no such frame any more\n"] $then)
    };
    ([110 $($more:tt)*] [$($line:literal)*] $then:ident) => {
        $crate::refusal_lines!([$($more)*] [$($line)* " 110  there are no variables with this reference\n"] $then)
    };
    ([111 $($more:tt)*] [$($line:literal)*] $then:ident) => {
        $crate::refusal_lines!([$($more)*] [$($line)*
            " 111  no refusal is there of which `exceptionInfo` could tell\n"
        ] $then)
    };
    ([113 $($more:tt)*] [$($line:literal)*] $then:ident) => {
        $crate::refusal_lines!([$($more)*] [$($line)*
            " 113  `attach` finds nothing: `launch` starts the debugger on a source\n"
        ] $then)
    };
    ([$text:literal $($more:tt)*] [$($line:literal)*] $then:ident) => {
        $crate::refusal_lines!([$($more)*] [$($line)* $text] $then)
    };
}
