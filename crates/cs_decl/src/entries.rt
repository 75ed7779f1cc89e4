use cs_civil::{Bytes, Sequence};
use cs_crontab::When;
use cs_history::Mode;

/// How an entry names a line of the crontab: by its number, its command or both, and perhaps its
/// schedule.
#[derive(Drop)]
pub struct LineName {
    /// Counted from 1 over all lines of the table.
    pub number: Option<i128>,
    /// The command, with the line's own bytes.
    pub command: Option<Bytes>,
    /// The line's schedule, if the entry gives one.
    pub when: Option<When>,
}

/// An entry of `groups`.
#[derive(Drop)]
pub struct GroupEntry {
    /// The name that jobs refer to.
    pub name: Bytes,
    /// Whether no two runs of its jobs may overlap, unless both share its lock.
    pub exclusive: bool,
}

/// An entry of `cron`.
#[derive(Drop)]
pub struct CronEntry {
    /// The line whose job it declares.
    pub name: LineName,
    /// The longest time of a run in minutes.
    pub max: i128,
    /// The weight of a run.
    pub weight: i128,
    /// The name of its group, if it has one.
    pub group: Option<Bytes>,
    /// How it treats the lock of its group.
    pub mode: Mode,
    /// The parts of its command; none if they aren't declared.
    pub parts: Sequence<PartEntry>,
    /// Whether the longest time is a draft's guess.
    pub guess: bool,
    /// What people call the job, if the entry says so.
    pub label: Option<Bytes>,
}

/// An entry of `parts`: one of the programs that a command runs one after the other, as
/// run-parts(8) does.
#[derive(Drop)]
pub struct PartEntry {
    /// The name of the program.
    pub name: Bytes,
    /// The longest time that it takes in minutes.
    pub max: i128,
}

/// An entry of `anacron`.
#[derive(Drop)]
pub struct AnacronEntry {
    /// The identifier of the job that it declares.
    pub identifier: Bytes,
    /// The longest time of a run in minutes.
    pub max: i128,
    /// The weight of a run.
    pub weight: i128,
    /// The name of its group, if it has one.
    pub group: Option<Bytes>,
    /// Whether it has a mode, which no anacron job may have.
    pub has_mode: bool,
    /// Whether the longest time is a draft's guess.
    pub guess: bool,
}

/// What is declared of each job without an entry.
#[derive(PartialEq, Eq, Drop)]
pub struct DefaultEntry {
    /// The longest time of a run in minutes.
    pub max: i128,
    /// The weight of a run.
    pub weight: i128,
}

/// Declarations of the right shape, with whole numbers of any size.
#[derive(Drop)]
pub struct Entries {
    /// The most that running jobs may weigh together.
    pub capacity: i128,
    /// Minutes by which the operator's clock is ahead of UTC; 0 beside a zone.
    pub offset: i128,
    /// The rule of the operator's zone (POSIX, TZ), if declared.
    pub zone: Option<Bytes>,
    /// The first minute of day of the catch-up hours, and the first after them.
    pub hours: (i128, i128),
    /// The minute of each day at which a catch-up pass begins, if declared.
    pub pass: Option<i128>,
    /// The groups.
    pub groups: Sequence<GroupEntry>,
    /// What is declared of cron jobs.
    pub cron: Sequence<CronEntry>,
    /// What is declared of anacron jobs.
    pub anacron: Sequence<AnacronEntry>,
    /// What is declared of jobs without an entry, if anything.
    pub default: Option<DefaultEntry>,
    /// The lines of the crontab that the plan leaves out.
    pub left_out: Sequence<LineName>,
    /// The first member that stands twice in one object of their text.
    pub doubled: Option<Bytes>,
}
