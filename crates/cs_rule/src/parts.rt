//! The parts of a zone's rule.
ghost use Rattle.std.specs.Prelude.{IsTrue};
ghost use Rattle.jiff_tz.specs.PosixDay.{is_rule_day};
ghost use Rattle.jiff_tz.specs.declared.posix.Day.TheVariants.{WeekdayOfMonth};

use jiff_tz::Abbreviation;

/// A clock of the zone: its name, and the seconds by which it is ahead of UTC.
#[derive(Clone, Copy)]
pub(crate) struct East {
    pub(crate) name: Abbreviation,
    pub(crate) seconds: i32,
}

/// A jump on `Mm.w.d`, and its seconds after midnight.
#[derive(Clone, Copy)]
pub(crate) struct Named {
    pub(crate) month: u8,
    pub(crate) week: u8,
    pub(crate) weekday: u8,
    pub(crate) time: i32,
    ghost in_range: { IsTrue (is_rule_day (WeekdayOfMonth month week weekday)) },
}
