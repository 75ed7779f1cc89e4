ghost use Rattle.std.specs.Prelude.{◌≡◌};
ghost use Rattle.cs_serve.specs.Serve.{in_front, named};

use cs_ruling::Order;

/// Why an order isn't served.
#[derive(Clone, Copy)]
pub(crate) enum Obstacle {
    NoFolder,
    InUse,
    Exposed,
    Unlocked,
    RequestStays,
    RunsUnread,
    NoHome,
    NotRoot,
    NoLog,
    NoOutput,
}

impl Obstacle {
    /// What is written of it, before the path.
    pub(crate) fn text(self) -> &'static str
        ensures { result.now ≡ in_front self }
    {
        match self {
            Obstacle::NoFolder => "no folder ",
            Obstacle::InUse => "another daemon uses ",
            Obstacle::Exposed => "other users can write to ",
            Obstacle::Unlocked => "can't lock ",
            Obstacle::RequestStays => "can't remove old requests from ",
            Obstacle::RunsUnread => "can't read the list of runs in ",
            Obstacle::NoHome => "no home folder, the user of this process isn't in ",
            Obstacle::NotRoot => "only root can run the gathered table ",
            Obstacle::NoLog => "can't write ",
            Obstacle::NoOutput => "no folder ",
        }
    }

    pub(crate) fn path<'a>(self, order: &Order<'a>) -> &'a str
        ensures { result.now ≡ named self order.now }
    {
        match self {
            Obstacle::NoLog => order.words.log.unwrap_or(""),
            Obstacle::NoOutput => order.words.output.unwrap_or(""),
            Obstacle::NoHome => "/etc/passwd",
            Obstacle::NotRoot => order.words.check.table,
            _ => order.words.stamps,
        }
    }
}
