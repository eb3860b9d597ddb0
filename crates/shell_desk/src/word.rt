ghost use Rattle.std.specs.Prelude.{◌≡◌, ◌≢◌, MatchOption, [], ◌⊎◌};
ghost use Rattle.shell_desk.specs.Words.{spelling, AsksDeed, AsksNoDeed, SpellsNothing, most_steps};
ghost use Rattle.shell_desk.specs.internal.Spelled as spec;

use crate::Deed;
use line_text::{read_branch, read_ticket};
use locked_execution::Command;

/// The words with which a line of a shell begins, beside those of a script.
#[derive(Clone, Copy, Debug, PartialEq, Eq)]
pub enum Word {
    /// `r`, for `ready`
    R,
    /// `n`, for `next`
    N,
    Run,
    Next,
    /// `undo` with no number
    Undo,
    Back,
    Why,
    Waiting,
    Outline,
    Vars,
    List,
    Show,
    Save,
    /// `save!`
    SaveOver,
    Load,
    Script,
    /// `script!`
    ScriptOver,
    Help,
    Quit,
}

const ALL: [Word; 19] = [
    Word::R,
    Word::N,
    Word::Run,
    Word::Next,
    Word::Undo,
    Word::Back,
    Word::Why,
    Word::Waiting,
    Word::Outline,
    Word::Vars,
    Word::List,
    Word::Show,
    Word::Save,
    Word::SaveOver,
    Word::Load,
    Word::Script,
    Word::ScriptOver,
    Word::Help,
    Word::Quit,
];

/// So many steps a run takes at most where it is not said: one more than can be live, so that it ends for another
/// reason.
const MOST_STEPS: u64 = 65_537;

impl Word {
    /// The word with this spelling, if there is one.
    pub fn read(text: &[u8]) -> Option<Word>
        ensures { MatchOption result (SpellsNothing text.now) (λ word. spelling word ≡ text.now) }
    {
        first_spelled(&ALL, text)
    }

    /// How it is spelled.
    pub fn spelling(self) -> &'static [u8]
        ensures { result.now ≡ spelling self }
    {
        match self {
            Word::R => b"r",
            Word::N => b"n",
            Word::Run => b"run",
            Word::Next => b"next",
            Word::Undo => b"undo",
            Word::Back => b"back",
            Word::Why => b"why",
            Word::Waiting => b"waiting",
            Word::Outline => b"outline",
            Word::Vars => b"vars",
            Word::List => b"list",
            Word::Show => b"show",
            Word::Save => b"save",
            Word::SaveOver => b"save!",
            Word::Load => b"load",
            Word::Script => b"script",
            Word::ScriptOver => b"script!",
            Word::Help => b"help",
            Word::Quit => b"quit",
        }
    }
}

/// The first of the words that is spelled so.
fn first_spelled(words: &[Word], text: &[u8]) -> Option<Word>
    ensures { result ≡ spec.first_spelled words.now text.now }
{
    let mut rest = words;
    while let [word, others @ ..] = rest {
        if word.spelling() == text {
            return Some(*word);
        }
        rest = others;
    }
    None
}

/// What the word asks of the desk with `rest` behind it, which is empty or begins with a space.
pub fn read_deed(word: Word, rest: &[u8]) -> Option<Deed>
    ensures { MatchOption result (AsksNoDeed word rest.now) (λ deed. AsksDeed word rest.now deed) }
{
    match word {
        Word::R => bare(rest, Deed::Ask(Command::Ready)),
        Word::N | Word::Next => match rest {
            [] => Some(Deed::NextAgain),
            _ => Some(Deed::Next(read_branch(rest)?)),
        },
        Word::Run => match rest {
            [] => Some(Deed::Run(MOST_STEPS)),
            _ => Some(Deed::Run(read_ticket(rest)?)),
        },
        Word::Undo => bare(rest, Deed::Back(1)),
        Word::Back => match rest {
            [] => Some(Deed::Back(1)),
            _ => Some(Deed::Back(read_ticket(rest)?)),
        },
        _ => None,
    }
}

/// The deed, where nothing is left.
fn bare(rest: &[u8], deed: Deed) -> Option<Deed>
    ensures { MatchOption result (rest.now ≢ []) (λ given. (rest.now ≡ []) × (given ≡ deed)) }
{
    if rest.is_empty() { Some(deed) } else { None }
}
