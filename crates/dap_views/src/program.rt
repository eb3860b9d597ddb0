// What is launched.
ghost use Rattle.std.specs.Prelude.{◌≡◌, [], string_bytes};
ghost use Rattle.dap_views.specs.Counted.{meant_line, shown_line};
ghost use Rattle.dap_views.specs.Files.{same_file};

use crate::index::Index;
use crate::lines::Lines;
use crate::paths::{base_of, is_same_file};
use crate::sight::Sight;
use crate::watched::Watched;
use dap_messages::Members;
use runs::Choice;
use std::alloc::Global;

/// What a client asked to launch.
#[derive(Drop)]
pub struct Launch {
    pub program: String,
    pub stimulus: Option<String>,
    pub trace: Option<String>,
    /// whether it stops before the first step
    pub stops: bool,
    /// the most steps of one run
    pub most: u64,
    /// whether it runs to its end without being debugged
    pub free: bool,
}

/// How a client counts: what is to be added to its lines and its columns so that they count from 1.
#[derive(Clone, Copy, Debug, PartialEq, Eq)]
pub struct Counting {
    pub lines: u64,
    pub columns: u64,
}

/// A breakpoint that was asked for.
#[derive(Clone, Copy, Debug, PartialEq, Eq)]
pub struct Asked {
    pub id: u64,
    /// the line that was asked for
    pub line: u64,
    /// the line on which it stands
    pub at: Option<u64>,
}

/// Why a step was refused, for whoever asks: its line of a script, and the words for it.
#[derive(Drop)]
pub struct Refused {
    pub line: String,
    pub words: String,
}

/// What is kept in mind of moves.
#[derive(Drop)]
pub struct Memo {
    /// the steps before which a run has stopped at a line, until one is taken or taken back
    pub seen: Vec<Choice>,
    /// the last refusal of a step
    pub refused: Option<Refused>,
}

impl Memo {
    /// Nothing has moved.
    pub fn new(alloc: Global) -> Memo
        ensures { result.seen.items ≡ [] }
    {
        Memo {
            seen: Vec::new(alloc),
            refused: None,
        }
    }
}

/// A description that was accepted, and what a client has set on it.
#[derive(Drop)]
pub struct Program {
    pub launch: Launch,
    pub counting: Counting,
    pub source: Vec<u8>,
    pub lines: Lines,
    pub index: Index,
    /// the breakpoints that were asked for
    pub asked: Vec<Asked>,
    /// the file for which they were, where another one is debugged now
    pub elsewhere: Option<String>,
    /// the lines that stop
    pub stops: Vec<u64>,
    pub watched: Vec<Watched>,
    /// whether a refusal stops as an exception
    pub excepts: bool,
    pub last_id: u64,
    /// whether its run has begun
    pub begun: bool,
    /// whether the client was told that it is over: nothing moves any more
    pub ended: bool,
    /// what the state offers, where it is known
    pub sight: Option<Sight>,
}

impl Program {
    /// Whether a client means this program by the path. Where it was launched by a name that counts from a folder, it
    /// does so by each path that ends in that.
    pub fn is_at(&self, path: &str) -> bool
        ensures { result ≡ same_file (string_bytes self.now.launch.program) path.now }
    {
        is_same_file(self.launch.program.as_str(), path)
    }

    /// Adds the file.
    pub fn add_source(&self, alloc: Global, members: &mut Members) {
        let path = self.launch.program.as_str();
        let mut source = Members::new(alloc);
        source.text("name", base_of(path));
        source.text("path", path);
        members.object("source", source);
    }

    /// Adds where the first word of the line stands, as the client counts.
    pub fn add_place(&self, alloc: Global, members: &mut Members, line: u64) {
        let column = self.lines.column(self.source.as_slice(), line);
        self.add_source(alloc, members);
        members.number("line", self.shown_line(line));
        members.number("column", column.saturating_sub(self.counting.columns));
    }

    /// The line, as the client counts.
    pub fn shown_line(&self, line: u64) -> u64
        ensures { result ≡ shown_line self.now line }
    {
        line.saturating_sub(self.counting.lines)
    }

    /// The line that the client means, from 1.
    pub fn meant_line(&self, line: u64) -> u64
        ensures { result ≡ meant_line self.now line }
    {
        line.saturating_add(self.counting.lines)
    }
}
