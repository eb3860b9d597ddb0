// What is kept of one live event.
use crate::links::Links;
use runs::Event;
use syntax::Boxed;

/// A live event, what follows it and what it follows.
#[derive(Drop)]
pub(crate) struct Kept {
    pub(crate) event: Boxed<Event>,
    pub(crate) links: Links,
}
