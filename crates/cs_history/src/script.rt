use crate::event::Event;
use crate::start::Start;
use cs_civil::Sequence;

/// A start and the events to try from there, in order; any of them may be refused.
#[derive(Drop)]
pub struct Script {
    /// Where the history starts.
    pub start: Start,
    /// The events to try, the first one first.
    pub events: Sequence<Event>,
}
