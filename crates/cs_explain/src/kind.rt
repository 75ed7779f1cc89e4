//! The kinds of inputs and answers that have names of their own.
ghost use Rattle.std.specs.Prelude.{◌≡◌, map};
ghost use Rattle.cs_explain.specs.Odd.{odd_names};

use crate::meaning::Meaning;
use crate::{
    anacrontab, call, certificate, crontab, declarations, event, odd, refused, script, system,
    unknown,
};

/// A kind of input or answer. Several kinds may have the same name.
#[derive(Clone, Copy)]
pub(crate) enum Kind {
    Crontab,
    System,
    Anacrontab,
    Declarations,
    Script,
    Call,
    Certificate,
    Refused,
    Event,
    Unknown,
    Odd,
}

/// In the order of the list.
pub(crate) const KINDS: [Kind; 11] = [
    Kind::Crontab,
    Kind::System,
    Kind::Anacrontab,
    Kind::Declarations,
    Kind::Script,
    Kind::Call,
    Kind::Certificate,
    Kind::Refused,
    Kind::Event,
    Kind::Unknown,
    Kind::Odd,
];

/// The lines above their names, in the same order.
const HEADINGS: [&str; 11] = [
    "In a crontab:",
    "In a system table:",
    "In an anacrontab:",
    "In declarations:",
    "In a script:",
    "On the command line:",
    "In a certificate:",
    "Of a refused certificate:",
    "Of a refused event:",
    "Of an answer 'unknown':",
    "Of what 'lint' calls odd:",
];

/// The number of the first fault that only a system table has.
const FIRST_OF_SYSTEM: usize = 13;

impl Kind {
    pub(crate) fn heading(self) -> &'static str {
        HEADINGS[self as usize]
    }

    /// Its names with their meanings, in the order of their numbers.
    #[tactic(auto, unfolding(crate::specs::Odd::odd_names))]
    pub(crate) fn meanings(self) -> &'static [Meaning]
        ensures { self ≡ Kind.Odd → map (λ meaning. meaning.name.now) result.now ≡ odd_names }
    {
        match self {
            Kind::Crontab => crontab::MEANINGS.as_slice(),
            Kind::System => system::MEANINGS.as_slice(),
            Kind::Anacrontab => anacrontab::MEANINGS.as_slice(),
            Kind::Declarations => declarations::MEANINGS.as_slice(),
            Kind::Script => script::MEANINGS.as_slice(),
            Kind::Call => call::MEANINGS.as_slice(),
            Kind::Certificate => certificate::MEANINGS.as_slice(),
            Kind::Refused => refused::MEANINGS.as_slice(),
            Kind::Event => event::MEANINGS.as_slice(),
            Kind::Unknown => unknown::MEANINGS.as_slice(),
            Kind::Odd => odd::MEANINGS.as_slice(),
        }
    }

    /// The name that messages print with that number. Longest times and hours in a call have the
    /// numbers of declarations; reasons and oddities have none.
    pub(crate) fn numbered(self, number: usize) -> Option<&'static Meaning> {
        let place = match self {
            Kind::Unknown | Kind::Odd => None,
            Kind::System => number.checked_sub(FIRST_OF_SYSTEM),
            Kind::Call => match number {
                1 => Some(0),
                2 => Some(1),
                6 => Some(2),
                12 => Some(3),
                _ => None,
            },
            _ => number.checked_sub(1),
        };
        self.meanings().get(place?)
    }
}
