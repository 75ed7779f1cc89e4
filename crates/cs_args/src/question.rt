//! What `day` is asked, in numbers.
ghost use Rattle.std.specs.Prelude.{◌≡◌, ◌≤◌, ◌<◌, ◌++◌, IfOk, IfErr, IfSome, IsNone, codes};
ghost use Rattle.cs_civil.specs.Faults.{fault_text};
ghost use Rattle.cs_args.specs.Asked.{asked};
ghost use Rattle.cs_args.specs.Question.{IsBadDate, IsBadWord, IsQuestion, IsTime, NamesDay};
ghost use Rattle.cs_args.specs.Words.{word_fault};

use crate::request::DayWords;
use cs_civil::{CivilFault, Day, Hours, read_day};
use std::marker::Model;

/// The first day that `day` shows, 1970-01-04: its windows may begin three days before it.
const FIRST_DAY: u64 = 3;

/// The longest time that a job may declare: three days, in minutes.
const LONGEST_TIME: u64 = 4_320;

/// A civil day from 1970-01-04 on, the longest time of each run, from 1 to 4,320 minutes, and the
/// catch-up hours.
#[derive(Clone, Copy)]
pub struct Question {
    date: Day,
    time: u16,
    hours: Hours,
}

impl Model for Question {
    ghost use Rattle.std.specs.Prelude.{◌≤◌};
    ghost use Rattle.cs_args.specs.Question.{Question as Asking, IsTime, first_start_day};

    ghost Value = { Asking };

    ghost view = { λ q. record {
      day = q.date;
      max = q.time;
      from = q.hours.from;
      to = q.hours.to;
    } };

    ghost invariant = { λ q. (first_start_day ≤ q.date) × IsTime q.time };

    ghost inverse = { λ q. record {
      date = q.day;
      time = q.max;
      hours = record { from = q.from; to = q.to };
    } };
}

/// What is wrong with the words of `day`, where they are a call.
#[derive(Clone, Copy)]
pub enum WordFault {
    /// DATE isn't a date, or is out of range.
    Date(CivilFault),
    /// MAX is out of range.
    BadMax,
    /// The catch-up hours are empty, or end after the day.
    BadHours,
}

fn read_date(text: &str) -> Result<Day, CivilFault>
    ensures ok { IfOk result (λ day. NamesDay day text.now) }
    ensures err { IfErr result (λ fault. IsBadDate text.now (codes "date: " ++ fault_text fault)) }
{
    let day = read_day(text.as_bytes())?;
    if day.number() < FIRST_DAY {
        return Err(CivilFault::OutOfRange);
    }
    Ok(day)
}

fn read_longest_time(max: u64) -> Option<u16>
    ensures some { IfSome result (λ time. (time ≡ max) × IsTime max) }
    ensures none { IsNone result → ¬ (IsTime max) }
{
    if max < 1 || max > LONGEST_TIME {
        return None;
    }
    Some(max as u16)
}

impl Question {
    /// What the words ask, or the first fault of DATE, MAX and the hours.
    pub fn new(words: &DayWords<'_>) -> Result<Question, WordFault>
        ensures ok { IfOk result (IsQuestion (asked words.now)) }
        ensures err { IfErr result (λ fault. IsBadWord (asked words.now) (word_fault fault)) }
    {
        let date = match read_date(words.date) {
            Ok(date) => date,
            Err(fault) => return Err(WordFault::Date(fault)),
        };
        let Some(time) = read_longest_time(words.max) else {
            return Err(WordFault::BadMax);
        };
        match Hours::new(words.from, words.to) {
            Some(hours) => Ok(Question { date, time, hours }),
            None => Err(WordFault::BadHours),
        }
    }

    /// The civil day.
    pub fn day(self) -> Day
        ensures value { result ≡ self.day }
        ensures late { 3 ≤ self.day }
    {
        self.date
    }

    /// The longest time of each run, in minutes.
    pub fn max(self) -> u16
        ensures value { result ≡ self.max }
        ensures time { IsTime self.max }
    {
        self.time
    }

    /// The catch-up hours.
    pub fn hours(self) -> Hours
        ensures from { result.from ≡ self.from }
        ensures to { result.to ≡ self.to }
    {
        self.hours
    }
}
