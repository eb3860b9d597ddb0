ghost use Rattle.std.specs.Prelude.{◌≡◌, [], None, IfSome};
ghost use Rattle.shell.specs.Taken.{head_of};
ghost use Rattle.shell.specs.declared.answer.Outcome.TheVariants.{Unread};

use plain_words::Text;
use std::alloc::Global;

/// What became of a line.
#[derive(Clone, Copy, Debug, PartialEq, Eq)]
pub enum Outcome {
    /// what it asks was done, which may be nothing
    Done,
    /// there was no memory to read it, and nothing was done
    Unread,
    /// the trace of the live steps is in a file
    Saved,
    /// it is not, and nothing was done
    NotSaved,
    /// the lines so far are in a file
    Scripted,
    /// they are not, and nothing was done
    NotScripted,
    /// another execution stands in place of the one before
    Loaded,
    /// none could be loaded, and nothing was done
    NotLoaded,
    /// the session is over
    Over,
}

/// What is answered to a line.
#[derive(Drop)]
pub struct Answer {
    pub outcome: Outcome,
    /// The answer of a script, word for word, each line with byte 10 at its end; `None` where there was no memory for
    /// it.
    pub own: Option<Vec<u8>>,
    /// What is said behind it in plain words, and behind what says whether a file was saved, written or loaded.
    pub words: Text,
}

/// A line that was answered with words alone.
pub(crate) fn spoken(alloc: Global, outcome: Outcome, words: Text) -> Answer
    ensures outcome { result.outcome ≡ outcome }
    ensures own { IfSome result.own (λ text. text.items ≡ []) }
{
    Answer {
        outcome,
        own: Some(Vec::new(alloc)),
        words,
    }
}

/// A line for which there was no memory to read it.
pub(crate) fn unread(alloc: Global) -> Answer
    ensures outcome { result.outcome ≡ Unread }
    ensures own { result.own ≡ None }
{
    Answer {
        outcome: Outcome::Unread,
        own: None,
        words: Text::new(alloc),
    }
}

/// A text of these words.
pub(crate) fn said(alloc: Global, words: &[u8]) -> Text {
    let mut text = Text::new(alloc);
    text.add(words);
    text
}

/// What is said before the words, by what became of the line.
pub(crate) fn head(outcome: Outcome) -> &'static [u8]
    ensures { result.now ≡ head_of outcome }
{
    match outcome {
        Outcome::Done => b"",
        Outcome::Unread => b"",
        Outcome::Saved => b"  wrote ",
        Outcome::NotSaved => b"  not saved: ",
        Outcome::Scripted => b"  wrote ",
        Outcome::NotScripted => b"  not written: ",
        Outcome::Loaded => b"  loaded ",
        Outcome::NotLoaded => b"  not loaded: ",
        Outcome::Over => b"",
    }
}
