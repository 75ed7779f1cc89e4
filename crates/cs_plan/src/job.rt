ghost use Rattle.std.specs.Prelude.{◌≡◌, ◌≤◌, IsSome, true};
ghost use Rattle.cs_plan.specs.declared.limits.TheConstants.{MAX_MINUTES, MAX_WEIGHT};
ghost use Rattle.cs_history.specs.Plan.{takes};

use cs_history::Mode;
use std::marker::Model;

/// What is declared of a job.
#[derive(Clone, Copy, Debug, PartialEq, Eq)]
pub struct Job {
    place: usize,
    max: u16,
    weight: u8,
    group: Option<u8>,
    mode: Mode,
}

impl Model for Job {
    ghost use Rattle.cs_plan.specs.Job.{DeclaredJob, IsPossible};

    ghost Value = { DeclaredJob };

    ghost view = { λ a. record {
      place = a.place;
      max = a.max;
      weight = a.weight;
      group = a.group;
      mode = a.mode;
    } };

    ghost invariant = { λ a. IsPossible (record {
      place = a.place;
      max = a.max;
      weight = a.weight;
      group = a.group;
      mode = a.mode;
    }) };

    ghost inverse = { λ v. record {
      place = v.place;
      max = v.max;
      weight = v.weight;
      group = v.group;
      mode = v.mode;
    } };
}

impl Job {
    ghost use Rattle.cs_plan.specs.Job.{IsPossible};

    /// Makes the declaration of the job at a place of its table: its longest time in minutes,
    /// weight, group and mode, each in range; a mode that takes a lock needs a group.
    pub fn new(place: usize, max: u16, weight: u8, group: Option<u8>, mode: Mode) -> Job
        requires { IsPossible (record {
          place = place;
          max = max;
          weight = weight;
          group = group;
          mode = mode;
        }) }
        ensures { result
            ≡ record { place = place; max = max; weight = weight; group = group; mode = mode } }
    {
        Job {
            place,
            max,
            weight,
            group,
            mode,
        }
    }

    /// Returns its index, from 0, among the commands of the crontab or the jobs of the anacrontab.
    pub fn place(self) -> usize
        ensures { result ≡ self.place }
    {
        self.place
    }

    /// Returns the longest time of a run in minutes, from 1 to [`MAX_MINUTES`](crate::MAX_MINUTES):
    /// a run that starts in minute t has ended before minute t + max.
    pub fn max(self) -> u16
        ensures value { result ≡ self.max }
        ensures in_range { (1 ≤ self.max) × (self.max ≤ MAX_MINUTES) }
    {
        self.max
    }

    /// Returns the weight of a run, from 1 to [`MAX_WEIGHT`](crate::MAX_WEIGHT).
    pub fn weight(self) -> u8
        ensures value { result ≡ self.weight }
        ensures in_range { (1 ≤ self.weight) × (self.weight ≤ MAX_WEIGHT) }
    {
        self.weight
    }

    /// Returns the index of its group in the plan, from 0, if it has one.
    pub fn group(self) -> Option<u8>
        ensures value { result ≡ self.group }
        ensures lock { takes self.mode ≡ true → IsSome self.group }
    {
        self.group
    }

    /// Returns how it treats the lock of its group; if it takes the lock, it has a group.
    pub fn mode(self) -> Mode
        ensures { result ≡ self.mode }
    {
        self.mode
    }
}
