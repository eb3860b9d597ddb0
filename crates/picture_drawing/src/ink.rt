// Colours.

/// A colour of the drawing. The first four say how an event stands to the one that is asked for.
#[derive(Clone, Copy, Debug, PartialEq, Eq)]
pub(crate) enum Ink {
    /// the event itself; where none is asked for, all are in this
    Dark,
    /// a cause
    Cause,
    /// a consequence
    Consequence,
    /// neither, and what is in the background
    Faint,
    /// numbers and small signs
    Soft,
    /// an order that only a shared variable makes
    Race,
    /// what waits in a ring
    Ring,
    /// what can be taken
    Ready,
    /// the edge of what a handshake encloses
    Enclosed,
    /// within it, on the action that opened the arm
    Opened,
    /// within it, on the action that is held: the pattern `held`, which the drawing begins with
    Held,
    /// within it, where it has nothing to do with the event that is asked for
    Pale,
    White,
    /// behind the event that is asked for
    Chosen,
}

impl Ink {
    /// Its code.
    pub(crate) fn code(self) -> &'static str {
        match self {
            Ink::Dark => "#1b2228",
            Ink::Cause => "#0067b1",
            Ink::Consequence => "#c24a00",
            Ink::Faint => "#c4cad0",
            Ink::Soft => "#5d6872",
            Ink::Race => "#9b3d91",
            Ink::Ring => "#8a1c4d",
            Ink::Ready => "#007a58",
            Ink::Enclosed => "#2d9a7c",
            Ink::Opened => "#bfe5d8",
            Ink::Held => "url(#held)",
            Ink::Pale => "#f4f7f6",
            Ink::White => "#ffffff",
            Ink::Chosen => "#ffe97a",
        }
    }

    /// This colour, or the other where it is that of an event of which nothing is to be said.
    pub(crate) fn or(self, other: Ink) -> Ink {
        match self {
            Ink::Dark => other,
            own => own,
        }
    }
}

/// How a line is broken.
#[derive(Clone, Copy, Debug, PartialEq, Eq)]
pub(crate) enum Dash {
    Whole,
    Dots,
    Short,
    Long,
    /// the edge of a consequence's mark
    Parts,
    /// the end of what a handshake encloses, as a consequence
    Fine,
}

impl Dash {
    /// The end of the last attribute and of the element, with the lengths of strokes and gaps, if there are any.
    pub(crate) fn end(self) -> &'static str {
        match self {
            Dash::Whole => "\"/>\n",
            Dash::Dots => "\" stroke-dasharray=\"1 4\"/>\n",
            Dash::Short => "\" stroke-dasharray=\"3 3\"/>\n",
            Dash::Long => "\" stroke-dasharray=\"5 4\"/>\n",
            Dash::Parts => "\" stroke-dasharray=\"3 1.5\"/>\n",
            Dash::Fine => "\" stroke-dasharray=\"1 2\"/>\n",
        }
    }
}
