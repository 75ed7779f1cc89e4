ghost use Rattle.std.specs.Prelude.{◌≡◌, nat_lt};
ghost use Rattle.std.specs.List.{list_all};
ghost use Rattle.cs_daytree.specs.Rising.{each_next, rises};
ghost use Rattle.cs_wait.specs.Bounds.{at};
ghost use Rattle.cs_claims.specs.Certificate.{bound_in, is_due_in, pieces_of};
ghost use Rattle.cs_claims.specs.Rules.{class_fits, due_list_fits, group_backlog_fits, has_carries, is_at_midnight, is_carries};

use crate::limits::{MAX_GROUPS, MAX_JOBS};
use cs_civil::{MINUTES_OF_DAY, Sequence};
use cs_wait::Backlog;

/// The minutes of a day at which a cron job is due.
#[derive(Drop)]
pub struct DueList {
    /// The job's number, below 320.
    pub job: u16,
    /// The minutes of the day, rising, at least one.
    pub minutes: Sequence<u16>,
}

/// A bound for each minute of a day on the minutes of runs that wait for a group's lock or hold it.
#[derive(Drop)]
pub struct GroupBacklog {
    /// The group's number, below 64.
    pub group: u8,
    /// The bound, in pieces.
    pub backlog: Backlog,
}

/// What a certificate says of all days of one class: when each job is due, and the backlog of each
/// group.
///
/// A job without a list is never due, and a group without a backlog has the bound 0 everywhere. In
/// version 3 there are no lists, and each backlog is one piece at minute 0: what is left over from
/// earlier days. Due minutes and later bounds are then worked out from the plan.
#[derive(Drop)]
pub struct Class {
    /// The due minutes, jobs rising.
    pub due: Sequence<DueList>,
    /// The backlogs, groups rising.
    pub backlog: Sequence<GroupBacklog>,
}

fn minutes_rise(minutes: &[u16]) -> bool
    ensures { result ≡ rises minutes.now }
{
    minutes.is_sorted_by(|one, next| *one < *next)
}

fn are_of_day(minutes: &[u16]) -> bool
    ensures { result ≡ list_all (λ minute. nat_lt minute MINUTES_OF_DAY) minutes.now }
{
    minutes.iter().all(|minute| *minute < MINUTES_OF_DAY)
}

impl DueList {
    fn fits(&self) -> bool
        ensures { result ≡ due_list_fits self.now }
    {
        self.job < MAX_JOBS
            && !self.minutes.is_empty()
            && minutes_rise(self.minutes.as_slice())
            && are_of_day(self.minutes.as_slice())
    }
}

fn jobs_rise(due: &[DueList]) -> bool
    ensures { result ≡ each_next (λ a b. nat_lt a.job b.job) due.now }
{
    due.is_sorted_by(|one, next| one.job < next.job)
}

fn lists_fit(due: &[DueList]) -> bool
    ensures { result ≡ list_all due_list_fits due.now }
{
    due.iter().all(|list| list.fits())
}

fn groups_rise(backlog: &[GroupBacklog]) -> bool
    ensures { result ≡ each_next (λ a b. nat_lt a.group b.group) backlog.now }
{
    backlog.is_sorted_by(|one, next| one.group < next.group)
}

impl GroupBacklog {
    fn is_at_midnight(&self) -> bool
        ensures { result ≡ is_at_midnight self.now }
    {
        self.backlog.pieces().iter().all(|piece| piece.minute == 0)
    }

    /// Its pieces always make a backlog.
    #[tactic(auto, using(crate::proofs::Backlogs::backlog_so))]
    fn fits(&self) -> bool
        ensures { result ≡ group_backlog_fits self.now }
    {
        let _pieces = self.backlog.pieces();
        self.group < MAX_GROUPS
    }
}

fn backlogs_fit(backlog: &[GroupBacklog]) -> bool
    ensures { result ≡ list_all group_backlog_fits backlog.now }
{
    backlog.iter().all(|of_group| of_group.fits())
}

fn are_at_midnight(backlog: &[GroupBacklog]) -> bool
    ensures { result ≡ list_all is_at_midnight backlog.now }
{
    backlog.iter().all(|of_group| of_group.is_at_midnight())
}

fn bound_among(backlog: &[GroupBacklog], group: u8, minute: u16) -> u32
    ensures { result ≡ at (pieces_of backlog.now group) minute }
{
    for of_group in backlog {
        if of_group.group == group {
            return of_group.backlog.at(minute);
        }
    }
    0
}

impl Class {
    /// Checks whether a job is listed as due at a minute of days of this class: never in version 3.
    pub fn is_due(&self, job: u16, minute: u16) -> bool
        ensures { result ≡ is_due_in self.now job minute }
    {
        self.due.as_slice().iter().any(|list| list.job == job
            && list.minutes.as_slice().contains(&minute))
    }

    /// Returns the listed bound of a group at a minute of a day of this class, 0 if it has none. In
    /// version 3 only minute 0 has a meaning.
    pub fn bound(&self, group: u8, minute: u16) -> u32
        ensures { result ≡ bound_in self.now group minute }
    {
        bound_among(self.backlog.as_slice(), group, minute)
    }

    pub(crate) fn is_carries(&self) -> bool
        ensures { result ≡ is_carries self.now }
    {
        self.due.is_empty() && are_at_midnight(self.backlog.as_slice())
    }

    pub(crate) fn has_carries(&self) -> bool
        ensures { result ≡ has_carries self.now }
    {
        let backlog = self.backlog.as_slice();
        backlog
            .iter()
            .all(|of_group| !of_group.backlog.pieces().is_empty())
    }

    pub(crate) fn fits(&self) -> bool
        ensures { result ≡ class_fits self.now }
    {
        let due = self.due.as_slice();
        let backlog = self.backlog.as_slice();
        jobs_rise(due) && lists_fit(due) && groups_rise(backlog) && backlogs_fit(backlog)
    }
}
