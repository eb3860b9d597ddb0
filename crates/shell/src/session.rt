use crate::Texts;
use crate::notes::Notes;
use plain_words::Elements;
use shell_answers::Scene;
use shell_desk::Bench;
use std::alloc::Global;

/// A session: a bench, and what it keeps in mind of its commands.
#[derive(Drop)]
pub struct Session {
    pub bench: Bench,
    pub notes: Notes,
}

/// What stays the same in a session: what it was begun with.
#[derive(Drop)]
pub struct Setting<'a> {
    pub alloc: Global,
    pub texts: Texts<'a>,
    pub elements: Elements<'a>,
}

impl Session {
    /// What words are told of.
    pub(crate) fn scene<'a>(&'a self, setting: &'a Setting<'a>) -> Scene<'a> {
        Scene {
            alloc: setting.alloc,
            bench: &self.bench,
            elements: &setting.elements,
            source: setting.texts.source,
        }
    }
}
