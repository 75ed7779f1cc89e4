//! The faults of a date, a longest time and catch-up hours in the words of a call.
use crate::meaning::Meaning;

/// In the order of their numbers.
pub(crate) static MEANINGS: [Meaning; 4] = [
    Meaning {
        name: "NotADate",
        short: "the date isn't YYYY-MM-DD, or no date of the calendar",
        text: "wrong:
  cronsafe day my.cron 2023-02-29 60
right:
  cronsafe day my.cron 2024-02-29 60",
    },
    Meaning {
        name: "OutOfRange",
        short: "the date is before 1970-01-04",
        text: "Runs on a date may have begun up to three days before it, and the first day is
1970-01-01.
wrong:
  cronsafe day my.cron 1970-01-01 60
right:
  cronsafe day my.cron 1970-01-04 60",
    },
    Meaning {
        name: "BadMax",
        short: "the longest time is outside 1 to 4320",
        text: "It is in minutes, and at most three days.
wrong:
  cronsafe day my.cron 2024-09-13 0
right:
  cronsafe day my.cron 2024-09-13 60",
    },
    Meaning {
        name: "BadHours",
        short: "not 0 <= from < to <= 1440",
        text: "--from and --to are minutes of the day: catch-up may start a job from the first
up to, but not including, the second. They can't go over midnight.
wrong:
  cronsafe day my.cron 2024-09-13 60 --from 1320 --to 120
right:
  cronsafe day my.cron 2024-09-13 60 --from 0 --to 120",
    },
];
