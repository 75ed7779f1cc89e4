/// Why a zone's rule can't be used.
#[derive(Clone, Copy)]
pub enum RuleFault {
    /// The text isn't a rule (POSIX, TZ).
    NoRule,
    /// An offset, or the time of a jump, isn't in whole minutes.
    Seconds,
    /// An offset is more than 23:59 either way (this profile).
    Offset,
    /// A jump is on a day `Jn` or `n` (this profile).
    DayForm,
    /// A jump is before 00:00 or after 24:00 (this profile).
    Time,
    /// A jump can be on 28 or 29 February or 1 March (this profile).
    March,
    /// Both jumps are in one month, or in months next to each other (this profile).
    Near,
    /// Summer time is less than 15 minutes or more than 120 from standard time (this profile).
    Saving,
}

/// What is wrong and what is required, in the order of the faults.
const TEXTS: [&str; 8] = [
    "a rule such as CET-1CEST,M3.5.0,M10.5.0/3 is required",
    "offsets and times have to be whole minutes",
    "an offset has to be from -23:59 to 23:59",
    "the day of a jump has to be of the form M3.5.0: month, week, weekday",
    "the time of a jump has to be from 00:00 to 24:00",
    "a jump must not fall on 28 or 29 February or 1 March",
    "between the months of the two jumps there has to be another month",
    "summer time has to differ from standard time by 15 to 120 minutes",
];

impl RuleFault {
    /// Returns what is wrong and what is required, as printed.
    pub fn text(self) -> &'static str {
        TEXTS[self as usize]
    }
}
