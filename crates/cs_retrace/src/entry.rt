ghost use Rattle.std.specs.Prelude.{◌≡◌};
ghost use Rattle.cs_retrace.specs.Order.{place_of, turn_number};

use cs_civil::Bytes;

/// Where in its minute an event stands.
#[derive(Clone, Copy)]
pub(crate) enum Turn {
    /// First, the daemon comes up.
    Comes,
    /// Then lines of the crontab begin.
    Begins,
    /// Then runs end, get locks or are caught up.
    Follows,
    /// Among these, a daemon goes down without a word.
    Crashes,
    /// Among these, one comes up after that.
    Returns,
    /// At last the daemon goes down.
    Goes,
}

impl Turn {
    fn number(self) -> u64
        ensures { result ≡ turn_number self }
    {
        match self {
            Turn::Comes => 0,
            Turn::Begins => 1,
            Turn::Follows => 2,
            Turn::Crashes => 2,
            Turn::Returns => 2,
            Turn::Goes => 3,
        }
    }
}

/// What happened in one minute: an event of a script.
#[derive(Drop)]
pub(crate) struct Entry {
    pub(crate) at: u64,
    pub(crate) turn: Turn,
    /// Where among the events of that minute and turn: the number of a line of the crontab, or how
    /// many events came before it in the log.
    pub(crate) order: u64,
    /// The line of the script, with its newline; empty where only the minute is known.
    pub(crate) text: Bytes,
}

impl Entry {
    pub(crate) fn place(&self) -> (u64, u64, u64)
        ensures { result ≡ place_of self.now }
    {
        (self.at, self.turn.number(), self.order)
    }
}
