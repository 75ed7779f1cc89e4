//! An entry of the journal, in few bytes.
ghost use Rattle.std.specs.Prelude.{◌≡◌};
ghost use Rattle.cs_keep.specs.Entry.{event_of, reply_of};

use cs_history::{Event, Reply, Run};
use std::marker::Model;

#[derive(Clone, Copy, PartialEq, Eq)]
pub(crate) enum EventKind {
    Minute,
    Begin,
    Got,
    Catch,
    End,
    Down,
    Up,
}

#[derive(Clone, Copy, PartialEq, Eq)]
pub(crate) enum Told {
    Clock,
    Started,
    Waiting,
    Skipped,
    InTime,
    Late,
    Went,
    Came,
}

/// An accepted event with its reply, in half the bytes of the two.
#[derive(Drop)]
pub struct Entry {
    // the minute of the event, and that of the run that it started; 0 if there is none
    at: u64,
    due: u64,
    // the job of the event, and that of the run; 0 if there is none
    job: u16,
    starts: u16,
    kind: EventKind,
    told: Told,
}

impl Model for Entry {
    ghost use Rattle.cs_history.specs.declared.event.Event.{Event};
    ghost use Rattle.cs_history.specs.declared.reply.Reply.{Reply};
    ghost use Rattle.cs_keep.specs.Entry.{event_of, reply_of};

    ghost Value = { Event × Reply };

    ghost view = { λ a. (event_of a.kind a.job a.at, reply_of a.told a.starts a.due) };
}

fn parts_of(event: Event) -> (EventKind, u16, u64)
    ensures { event_of result.0 result.1 result.2 ≡ event }
{
    match event {
        Event::Minute(at) => (EventKind::Minute, 0, at),
        Event::Begin(job) => (EventKind::Begin, job, 0),
        Event::Got(job, at) => (EventKind::Got, job, at),
        Event::Catch(job) => (EventKind::Catch, job, 0),
        Event::End(run) => (EventKind::End, run.job, run.at),
        Event::Down => (EventKind::Down, 0, 0),
        Event::Up(at) => (EventKind::Up, 0, at),
    }
}

fn answer_of(reply: Reply) -> (Told, u16, u64)
    ensures { reply_of result.0 result.1 result.2 ≡ reply }
{
    match reply {
        Reply::Clock => (Told::Clock, 0, 0),
        Reply::Started(run) => (Told::Started, run.job, run.at),
        Reply::Waiting => (Told::Waiting, 0, 0),
        Reply::Skipped => (Told::Skipped, 0, 0),
        Reply::Ended(true) => (Told::InTime, 0, 0),
        Reply::Ended(false) => (Told::Late, 0, 0),
        Reply::Went => (Told::Went, 0, 0),
        Reply::Came => (Told::Came, 0, 0),
    }
}

impl Entry {
    pub(crate) fn new(event: Event, reply: Reply) -> Entry
        ensures { result ≡ (event, reply) }
    {
        let (kind, job, at) = parts_of(event);
        let (told, starts, due) = answer_of(reply);
        Entry {
            at,
            due,
            job,
            starts,
            kind,
            told,
        }
    }

    /// Returns the event.
    pub fn event(&self) -> Event
        ensures { result ≡ self.now.0 }
    {
        let (job, at) = (self.job, self.at);
        match self.kind {
            EventKind::Minute => Event::Minute(at),
            EventKind::Begin => Event::Begin(job),
            EventKind::Got => Event::Got(job, at),
            EventKind::Catch => Event::Catch(job),
            EventKind::End => Event::End(Run { job, at }),
            EventKind::Down => Event::Down,
            EventKind::Up => Event::Up(at),
        }
    }

    /// Returns the reply to it.
    pub fn reply(&self) -> Reply
        ensures { result ≡ self.now.1 }
    {
        match self.told {
            Told::Clock => Reply::Clock,
            Told::Started => Reply::Started(Run {
                job: self.starts,
                at: self.due,
            }),
            Told::Waiting => Reply::Waiting,
            Told::Skipped => Reply::Skipped,
            Told::InTime => Reply::Ended(true),
            Told::Late => Reply::Ended(false),
            Told::Went => Reply::Went,
            Told::Came => Reply::Came,
        }
    }
}
