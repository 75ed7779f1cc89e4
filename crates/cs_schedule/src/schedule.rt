ghost use Rattle.std.specs.Prelude.{◌≡◌, ◌/◌, ◌%◌, ◌<◌, ◌≤◌};
ghost use Rattle.cs_civil.specs.Calendar.{kind};
ghost use Rattle.cs_schedule.specs.declared.part.Part.TheVariants as part;
ghost use Rattle.cs_schedule.specs.Minutes.{minutes_where};
ghost use Rattle.cs_schedule.specs.Times.{IsWithin, choice_of, is_day_due, is_due, is_time_due, is_time_shown, times};

use crate::field::Field;
use crate::minute_set::MinuteSet;
use crate::part::Part;
use cs_civil::{DayKind, Minute, kind_of};
use std::marker::Model;

/// When a command is due: the five time and date fields of crontab(5), with numbers in range.
#[derive(Drop)]
pub struct Schedule {
    minute: Field,
    hour: Field,
    dom: Field,
    month: Field,
    dow: Field,
}

impl Model for Schedule {
    ghost use Rattle.cs_schedule.specs.Times.{Times, IsPossible, times};

    ghost Value = { Times };

    ghost view = { λ s. times s.minute s.hour s.dom s.month s.dow };

    ghost invariant = { λ s. IsPossible (times s.minute s.hour s.dom s.month s.dow) };
}

impl Schedule {
    /// Returns the schedule with these fields.
    pub fn new(minute: Field, hour: Field, dom: Field, month: Field, dow: Field) -> Schedule
        requires minute { IsWithin part.Minute minute.numbers }
        requires hour { IsWithin part.Hour hour.numbers }
        requires dom { IsWithin part.Dom dom.numbers }
        requires month { IsWithin part.Month month.numbers }
        requires dow { IsWithin part.Dow dow.numbers }
        ensures { result ≡ times minute hour dom month dow }
    {
        Schedule {
            minute,
            hour,
            dom,
            month,
            dow,
        }
    }

    /// Copies the schedule.
    pub fn copy(&self) -> Schedule
        ensures { result ≡ self.now }
    {
        Schedule {
            minute: self.minute.copy(),
            hour: self.hour.copy(),
            dom: self.dom.copy(),
            month: self.month.copy(),
            dow: self.dow.copy(),
        }
    }

    /// Returns one of its fields; weekdays are from 0 for Sunday to 6.
    pub fn field(&self, part: Part) -> &Field
        ensures value { result.now ≡ choice_of self.now part }
        ensures within { IsWithin part (choice_of self.now part).numbers }
    {
        match part {
            Part::Minute => &self.minute,
            Part::Hour => &self.hour,
            Part::Dom => &self.dom,
            Part::Month => &self.month,
            Part::Dow => &self.dow,
        }
    }

    /// Whether the command is due on days of this kind, at the minutes of
    /// [`times`](Schedule::times).
    pub fn is_day_due(&self, kind: DayKind) -> bool
        ensures { result ≡ is_day_due self.now kind }
    {
        let dom = self.dom.has(kind.dom());
        let dow = self.dow.has(kind.dow());
        let day = if self.dom.begins_with_star() || self.dow.begins_with_star() {
            dom && dow
        } else {
            dom || dow
        };
        self.month.has(kind.month()) && day
    }

    /// Whether the command is due at this minute.
    pub fn matches(&self, minute: Minute) -> bool
        ensures { result ≡ is_due self.now (kind (minute / 1440)) (minute % 1440) }
    {
        self.is_due_on(kind_of(minute.day()), minute.minute_of_day())
    }

    /// Whether the command is due at this minute, from 0, of a day of this kind.
    pub fn is_due_on(&self, kind: DayKind, minute_of_day: u16) -> bool
        requires { minute_of_day < 1440 }
        ensures { result ≡ is_due self.now kind minute_of_day }
    {
        self.minute.has((minute_of_day % 60) as u8)
            && self.hour.has((minute_of_day / 60) as u8)
            && self.is_day_due(kind)
    }

    /// Returns the minutes, from 0 to 1,439, at which the command is due on each of its days.
    pub fn times(&self) -> MinuteSet
        ensures { result ≡ minutes_where (is_time_due self.now) }
    {
        self.times_shown(0, 0, 1_440)
    }

    /// Returns the minutes of a day in which a clock that is `turn` minutes ahead shows one of these
    /// times, from the time `from` on and before `to`, in minutes of its day.
    pub fn times_shown(&self, turn: u16, from: u16, to: u16) -> MinuteSet
        requires { turn ≤ 1440 }
        ensures { result ≡ minutes_where (is_time_shown self.now turn from to) }
    {
        MinuteSet::of_times(self.hour.numbers(), self.minute.numbers(), turn, from, to)
    }

    /// Returns the minutes at which the command is due on a day of this kind.
    pub fn minutes_of(&self, kind: DayKind) -> MinuteSet
        ensures { result ≡ minutes_where (is_due self.now kind) }
    {
        if !self.is_day_due(kind) {
            return MinuteSet::new();
        }
        self.times()
    }
}
