ghost use Rattle.std.specs.Prelude.{◌≡◌, ◌++◌, IfOk, decimal};
ghost use Rattle.cs_plan.specs.Printed.{fault_text, place_text, error_text};
ghost use Rattle.cs_plan.specs.declared.fault.DeclError.TheVariants.{OutOfMemory};

use cs_civil::Bytes;
use std::alloc::{AllocError, AllocFailed, Global};
use thiserror::Error;

/// What is wrong with declarations or a plan, printed as number and name: `6 BadMax`.
#[derive(Clone, Copy, Debug, PartialEq, Eq, Error)]
#[error("{}", self.text())]
pub enum DeclFault {
    /// The bytes aren't JSON.
    NotJson,
    /// A member is absent, unknown or of another type, a number isn't whole, or the offset is too
    /// great.
    BadShape,
    /// An entry names no line of the crontab, or no job of the anacrontab.
    NoSuchLine,
    /// A job has no entry, and there is no default.
    Undeclared,
    /// A group, a line or an identifier is declared again, or a declared line is left out.
    TwiceDeclared,
    /// A longest time isn't from 1 to [`MAX_MINUTES`](crate::MAX_MINUTES) minutes.
    BadMax,
    /// A weight isn't from 1 to [`MAX_WEIGHT`](crate::MAX_WEIGHT).
    BadWeight,
    /// The capacity isn't from 1 to [`MAX_CAPACITY`](crate::MAX_CAPACITY).
    BadCapacity,
    /// A job that takes a lock has no group.
    ModeNeedsGroup,
    /// The group isn't declared.
    UnknownGroup,
    /// The group is the first above [`MAX_GROUPS`](crate::MAX_GROUPS).
    TooManyGroups,
    /// The catch-up hours aren't two minutes of a day in order, the last up to 1,440.
    BadHours,
    /// An anacron job has a mode.
    ModeOnAnacron,
    /// The crontab has an `@reboot` line that isn't left out.
    RebootLine,
    /// The pass minute isn't from 0 to 1,439.
    BadPassMinute,
    /// The line of an entry has another command than the entry gives.
    OtherCommand,
    /// An entry without a number names several lines.
    AmbiguousCommand,
    /// Two parts have one name, the longest time of a part isn't from 1 to
    /// [`MAX_MINUTES`](crate::MAX_MINUTES) minutes, or all together are above that of the entry.
    BadParts,
    /// The line of an entry has another schedule than the entry gives.
    OtherSchedule,
    /// The parts of an entry aren't those of its line's place in a gathered table.
    OtherParts,
    /// The zone isn't a rule (POSIX, TZ) of this profile.
    BadZone,
    /// Catch-up hours are declared beside a zone, and aren't all hours.
    HoursInZone,
    /// A pass minute is declared beside a zone.
    PassInZone,
    /// After clocks go forward, cron starts the line twice in one minute.
    StartsTwice,
}

impl DeclFault {
    /// Returns its number and name, as printed.
    pub fn text(self) -> &'static str
        ensures { result.now ≡ fault_text self }
    {
        match self {
            DeclFault::NotJson => "1 NotJson",
            DeclFault::BadShape => "2 BadShape",
            DeclFault::NoSuchLine => "3 NoSuchLine",
            DeclFault::Undeclared => "4 Undeclared",
            DeclFault::TwiceDeclared => "5 TwiceDeclared",
            DeclFault::BadMax => "6 BadMax",
            DeclFault::BadWeight => "7 BadWeight",
            DeclFault::BadCapacity => "8 BadCapacity",
            DeclFault::ModeNeedsGroup => "9 ModeNeedsGroup",
            DeclFault::UnknownGroup => "10 UnknownGroup",
            DeclFault::TooManyGroups => "11 TooManyGroups",
            DeclFault::BadHours => "12 BadHours",
            DeclFault::ModeOnAnacron => "13 ModeOnAnacron",
            DeclFault::RebootLine => "14 RebootLine",
            DeclFault::BadPassMinute => "15 BadPassMinute",
            DeclFault::OtherCommand => "16 OtherCommand",
            DeclFault::AmbiguousCommand => "17 AmbiguousCommand",
            DeclFault::BadParts => "18 BadParts",
            DeclFault::OtherSchedule => "19 OtherSchedule",
            DeclFault::OtherParts => "20 OtherParts",
            DeclFault::BadZone => "21 BadZone",
            DeclFault::HoursInZone => "22 HoursInZone",
            DeclFault::PassInZone => "23 PassInZone",
            DeclFault::StartsTwice => "24 StartsTwice",
        }
    }
}

/// Where a fault is. Entries are counted from 0.
#[derive(Debug, PartialEq, Eq, Drop)]
pub enum Place {
    /// An entry of `groups`.
    Group(usize),
    /// An entry of `cron`.
    Cron(usize),
    /// An entry of `anacron`.
    Anacron(usize),
    /// An entry of `left_out`.
    LeftOut(usize),
    /// A command of the crontab, by its line number.
    Line(u32),
    /// A job of the anacrontab, by its identifier.
    Job(Bytes),
}

fn numbered(alloc: Global, front: &str, number: u128) -> Result<Bytes, AllocError>
    ensures { IfOk result (λ text. text ≡ front.now ++ decimal number) }
{
    let text = format!(in alloc; "{front}{number}")?;
    Ok(Bytes::from_vec(text.into_bytes()))
}

impl Place {
    /// Formats the place as printed after a fault, ` at cron 2`, with entries counted from 1.
    pub fn text(&self, alloc: Global) -> Result<Bytes, AllocError>
        ensures { IfOk result (λ text. text ≡ place_text self.now) }
    {
        match self {
            Place::Group(i) => numbered(alloc, " at group ", *i as u128 + 1),
            Place::Cron(i) => numbered(alloc, " at cron ", *i as u128 + 1),
            Place::Anacron(i) => numbered(alloc, " at anacron ", *i as u128 + 1),
            Place::LeftOut(i) => numbered(alloc, " at left_out ", *i as u128 + 1),
            Place::Line(number) => numbered(alloc, " at line ", u128::from(*number)),
            Place::Job(identifier) => {
                let mut text = Vec::from_slice(alloc, b" at job ".as_slice())?;
                text.extend_from_slice(identifier.as_slice())?;
                Ok(Bytes::from_vec(text))
            }
        }
    }
}

/// Why there are no declarations, or no plan.
#[derive(Debug, PartialEq, Eq, Drop, Error)]
pub enum DeclError {
    /// The fault, and its place if it has one.
    #[error("{fault}")]
    At {
        fault: DeclFault,
        place: Option<Place>,
    },
    /// Memory ran out.
    #[error("out of memory")]
    OutOfMemory,
}

impl DeclError {
    /// Formats the fault and its place: `6 BadMax at cron 2`.
    pub fn text(&self, alloc: Global) -> Result<Bytes, AllocError>
        ensures { IfOk result (λ text. text ≡ error_text self.now) }
    {
        match self {
            DeclError::At { fault, place } => {
                let mut text = Vec::from_slice(alloc, fault.text().as_bytes())?;
                if let Some(place) = place {
                    text.extend_from_slice(place.text(alloc)?.as_slice())?;
                }
                Ok(Bytes::from_vec(text))
            }
            DeclError::OutOfMemory => Bytes::from_slice(alloc, b"out of memory".as_slice()),
        }
    }
}

impl From<AllocError> for DeclError {
    ghost from_gives = { λ _ e. e ≡ OutOfMemory };

    fn from(_e: AllocError) -> DeclError {
        DeclError::OutOfMemory
    }
}

impl<T: Drop> From<AllocFailed<T>> for DeclError {
    ghost from_gives = { λ _ e. e ≡ OutOfMemory };

    fn from(_e: AllocFailed<T>) -> DeclError {
        DeclError::OutOfMemory
    }
}
