// The words for each kind of event, by whether it was taken or may be.
use crate::deeds::Tense;

/// The words, by tense.
#[derive(Clone, Copy)]
pub(crate) struct Phrase {
    done: &'static [u8],
    possible: &'static [u8],
}

impl Phrase {
    /// The words of this tense.
    pub(crate) fn text(self, tense: Tense) -> &'static [u8] {
        match tense {
            Tense::Done => self.done,
            Tense::Possible => self.possible,
        }
    }
}

pub(crate) const RECEIVES: Phrase = Phrase {
    done: b"received ",
    possible: b"receive ",
};

pub(crate) const SENDS: Phrase = Phrase {
    done: b"sent ",
    possible: b"send ",
};

pub(crate) const TAKES_ARM: Phrase = Phrase {
    done: b"the test took arm ",
    possible: b"test, which takes arm ",
};

pub(crate) const TAKES_NONE: Phrase = Phrase {
    done: b"the test took no arm",
    possible: b"test, which takes no arm",
};

pub(crate) const TURNS: Phrase = Phrase {
    done: b"the loop began a turn",
    possible: b"begin a turn of the loop",
};

pub(crate) const OPENS: Phrase = Phrase {
    done: b"opened arm ",
    possible: b"open arm ",
};

pub(crate) const CLOSES: Phrase = Phrase {
    done: b"closed ",
    possible: b"close ",
};

pub(crate) const SYNCS: Phrase = Phrase {
    done: b"synced on ",
    possible: b"sync on ",
};
