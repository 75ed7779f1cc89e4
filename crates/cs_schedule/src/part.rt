ghost use Rattle.std.specs.Prelude.{◌≡◌};

/// One of the five time and date fields of a command line (crontab(5)).
#[derive(Clone, Copy, PartialEq, Eq)]
pub enum Part {
    /// The minute of the hour.
    Minute,
    /// The hour of the day.
    Hour,
    /// The day of the month.
    Dom,
    /// The month of the year.
    Month,
    /// The day of the week.
    Dow,
}

impl Part {
    ghost use Rattle.cs_schedule.specs.Part.{first_of, last_of};

    /// Returns the least number that may be written.
    pub fn first(self) -> u8
        ensures { result ≡ first_of self }
    {
        match self {
            Part::Minute | Part::Hour | Part::Dow => 0,
            Part::Dom | Part::Month => 1,
        }
    }

    /// Returns the greatest number that may be written: for weekdays 7, which is Sunday too.
    pub fn last(self) -> u8
        ensures { result ≡ last_of self }
    {
        match self {
            Part::Minute => 59,
            Part::Hour => 23,
            Part::Dom => 31,
            Part::Month => 12,
            Part::Dow => 7,
        }
    }
}
