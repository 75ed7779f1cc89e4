//! Which jobs of the plan after an edit are those of the plan before it.
use cs_anacrontab::Job;
use cs_crontab::Line;
use cs_decl::is_same_when;
use cs_plan::Plan;
use std::alloc::{AllocError, Global};

/// Jobs are bound by their commands, anacron jobs by their identifiers.
#[derive(Drop)]
pub(crate) struct Binding {
    /// Of each job after, the number before, if it was there.
    was: Vec<Option<u16>>,
    /// Of each job before, whether it is there after.
    stays: Vec<bool>,
}

impl Binding {
    pub(crate) fn was(&self, job: u16) -> Option<u16> {
        match self.was.get(usize::from(job)) {
            Some(was) => *was,
            None => None,
        }
    }

    pub(crate) fn stays(&self, job: u16) -> bool {
        match self.stays.get(usize::from(job)) {
            Some(stays) => *stays,
            None => false,
        }
    }

    fn bind(&mut self, old: u16, new: u16) {
        if let Some(stays) = self.stays.get_mut(usize::from(old)) {
            *stays = true;
        }
        if let Some(was) = self.was.get_mut(usize::from(new)) {
            *was = Some(old);
        }
    }

    /// The first line before with this one's command, and its schedule if `timed`, that isn't bound.
    fn line_before(&self, old: &[Line], line: &Line, timed: bool) -> Option<u16> {
        let mut job = 0u16;
        for other in old {
            if !self.stays(job)
                && other.command() == line.command()
                && (!timed || is_same_when(other.when(), line.when()))
            {
                return Some(job);
            }
            job = job.saturating_add(1);
        }
        None
    }

    fn bind_lines(&mut self, old: &[Line], new: &[Line], timed: bool) {
        let mut job = 0u16;
        for line in new {
            if self.was(job).is_none() {
                if let Some(before) = self.line_before(old, line, timed) {
                    self.bind(before, job);
                }
            }
            job = job.saturating_add(1);
        }
    }

    fn bind_job(&mut self, old: &[Job], crons: u16, job: &Job, number: u16) {
        let mut before = crons;
        for other in old {
            if other.identifier() == job.identifier() {
                self.bind(before, number);
            }
            before = before.saturating_add(1);
        }
    }

    fn bind_jobs(&mut self, old: (&[Job], u16), new: (&[Job], u16)) {
        let mut number = new.1;
        for job in new.0 {
            self.bind_job(old.0, old.1, job, number);
            number = number.saturating_add(1);
        }
    }
}

/// With several lines of one command first those with the same schedule are bound, and then the
/// others in order.
pub(crate) fn bound(alloc: Global, old: &Plan, new: &Plan) -> Result<Binding, AllocError> {
    let mut binding = Binding {
        was: vec![in alloc; None; new.jobs().len()]?,
        stays: vec![in alloc; false; old.jobs().len()]?,
    };
    let (before, after) = (old.crontab().lines(), new.crontab().lines());
    binding.bind_lines(before, after, true);
    binding.bind_lines(before, after, false);
    let before = (old.anacrontab().lines(), old.crons() as u16);
    let after = (new.anacrontab().lines(), new.crons() as u16);
    binding.bind_jobs(before, after);
    Ok(binding)
}
