ghost use Rattle.std.specs.Prelude.{◌≡◌, ◌+◌, ◌<◌, ◌≤◌, ◌∷◌, slice_get, Some, ◌↔◌, IsSome, IfSome, All, Contains};
ghost use Rattle.cs_civil.specs.Calendar.{Kind, IsKind, longest, kind, kinds_after, four_days, ComesWithin};
ghost use Rattle.cs_civil.specs.Text.{weekday_text};
ghost use Rattle.cs_civil.specs.Order.{all_kinds, kinds_from, place};

use crate::Day;
use crate::date::date_on;
use arrayvec::ArrayVec;
use jiff_core::civil::{Date, days_in_month};
use std::marker::Model;

/// A leap year: its days are those that a kind can have.
const LEAP_YEAR: i16 = 2000;

/// What a schedule sees of a day (crontab(5)): month, day of the month and weekday. There are 2,562
/// of them: each of the 366 days of a leap year on each of seven weekdays.
#[derive(Clone, Copy, PartialEq, Eq, PartialOrd, Ord, Hash)]
pub struct DayKind {
    month_number: u8,
    day_number: u8,
    weekday: u8,
}

impl Model for DayKind {
    ghost use Rattle.cs_civil.specs.Calendar.{Kind, IsKind};

    ghost Value = { Kind };

    ghost view = { λ a. record { month = a.month_number; dom = a.day_number; dow = a.weekday } };

    ghost invariant = { λ a. IsKind
        (record { month = a.month_number; dom = a.day_number; dow = a.weekday }) };

    ghost inverse = { λ k. record { month_number = k.month; day_number = k.dom; weekday = k.dow } };
}

impl DayKind {
    /// Returns the kind with this month (1 to 12), day of the month (1 to 31) and weekday (0 to 6,
    /// Sunday is 0); `None` if no day has it.
    pub fn new(month: u8, dom: u8, dow: u8) -> Option<DayKind>
        ensures possible { IsSome result ↔ IsKind (record { month = month; dom = dom; dow = dow }) }
        ensures value { IfSome result (λ k. k ≡ record { month = month; dom = dom; dow = dow }) }
    {
        if month < 1 || month > 12 || dow > 6 {
            return None;
        }
        if dom < 1 || dom > longest_month(month) {
            return None;
        }
        Some(DayKind {
            month_number: month,
            day_number: dom,
            weekday: dow,
        })
    }

    /// Returns the month, from 1 to 12, as in crontab(5).
    pub fn month(self) -> u8
        ensures value { result ≡ self.month }
        ensures kind { IsKind self }
    {
        self.month_number
    }

    /// Returns the day of the month, from 1 to 31, as in crontab(5).
    pub fn dom(self) -> u8
        ensures value { result ≡ self.dom }
        ensures kind { IsKind self }
    {
        self.day_number
    }

    /// Returns the weekday, from 0 for Sunday to 6; crontab(5) also has 7 for Sunday.
    pub fn dow(self) -> u8
        ensures value { result ≡ self.dow }
        ensures kind { IsKind self }
    {
        self.weekday
    }

    /// The next kind in the order of [`all_kinds`](crate::all_kinds); `None` after the last.
    #[tactic(auto, using(crate::proofs::Places::next_weekday, crate::proofs::Places::next_day, crate::proofs::Places::next_first, crate::proofs::Places::no_next))]
    pub(crate) fn following(self) -> Option<DayKind>
        ensures { kinds_from (Some self) ≡ self ∷ kinds_from result }
    {
        let mut kind = self;
        if kind.weekday < 6 {
            kind.weekday += 1;
            return Some(kind);
        }
        kind.weekday = 0;
        if kind.day_number < longest_month(kind.month_number) {
            kind.day_number += 1;
            return Some(kind);
        }
        kind.day_number = 1;
        if kind.month_number < 12 {
            kind.month_number += 1;
            return Some(kind);
        }
        None
    }
}

/// Returns the kinds that the next day can have: one, or after 28 February two, 29 February first.
/// Each does occur within the first 28 years.
#[tactic(auto, using(crate::proofs::Cycle::next_come))]
pub fn next_kinds(kind: DayKind) -> ArrayVec<DayKind, 2>
    ensures value { result.items ≡ kinds_after kind }
    ensures come { All (ComesWithin 10_227 kind) (kinds_after kind) }
{
    let dow = (kind.weekday + 1) % 7;
    let mut next = ArrayVec::new();
    if kind.month_number == 2 && kind.day_number == 28 {
        next.push(DayKind {
            month_number: 2,
            day_number: 29,
            weekday: dow,
        });
        next.push(DayKind {
            month_number: 3,
            day_number: 1,
            weekday: dow,
        });
    } else if kind.day_number < longest_month(kind.month_number) {
        next.push(DayKind {
            month_number: kind.month_number,
            day_number: kind.day_number + 1,
            weekday: dow,
        });
    } else {
        next.push(DayKind {
            month_number: kind.month_number % 12 + 1,
            day_number: 1,
            weekday: dow,
        });
    }
    next
}

/// Returns the index of a kind in [`all_kinds`](crate::all_kinds), from 0 to 2,561.
#[tactic(auto, using(crate::proofs::Places::place_is))]
pub fn kind_number(kind: DayKind) -> u16
    ensures value { result ≡ place kind }
    ensures listed { slice_get all_kinds result ≡ Some kind }
    ensures bound { result < 2_562 }
{
    let day = Date::constrain(LEAP_YEAR, kind.month_number, kind.day_number).day_of_year();
    7 * (day - 1) + u16::from(kind.weekday)
}

fn longest_month(month: u8) -> u8
    ensures { result ≡ longest month }
{
    days_in_month(LEAP_YEAR, month)
}

impl Default for DayKind {
    ghost is_default = { λ k. k ≡ record { month = 1; dom = 1; dow = 0 } };

    /// The first kind in order: a Sunday that is 1 January.
    fn default() -> DayKind {
        DayKind {
            month_number: 1,
            day_number: 1,
            weekday: 0,
        }
    }
}

/// Returns the kind of a day.
#[tactic(auto, using(crate::proofs::Dates::kind_is, crate::proofs::Following::kind_followed))]
pub fn kind_of(day: Day) -> DayKind
    ensures value { result ≡ kind day }

    // the kind of the next day is one of those that follow
    ensures followed { Contains (kinds_after (kind day)) (kind (day + 1)) }
{
    let date = date_on(day);
    let dow = (date.weekday().index() + 1) % 7;
    DayKind {
        month_number: date.month,
        day_number: date.day,
        weekday: dow,
    }
}

/// Returns the kinds of a day and of the three days before it, eldest first. 1970-01-01 stands for
/// days before it.
#[tactic(auto, unfolding(crate::specs::Calendar::four_days))]
pub fn four_days(day: Day) -> [DayKind; 4]
    ensures { result ≡ four_days day }
{
    let number = day.number();
    [
        kind_of(Day::new(number.saturating_sub(3)).unwrap()),
        kind_of(Day::new(number.saturating_sub(2)).unwrap()),
        kind_of(Day::new(number.saturating_sub(1)).unwrap()),
        kind_of(day),
    ]
}

/// Returns the short name of a weekday, 0 for Sunday.
#[tactic(auto, unfolding(crate::specs::Text::weekday_text))]
pub fn weekday_name(dow: u8) -> &'static str
    ensures { result.now ≡ weekday_text dow }
{
    match dow {
        0 => "Sun",
        1 => "Mon",
        2 => "Tue",
        3 => "Wed",
        4 => "Thu",
        5 => "Fri",
        _ => "Sat",
    }
}
