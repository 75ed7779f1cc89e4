//! The faults of a script of `replay`.
use crate::meaning::Meaning;

/// In the order of their numbers.
pub(crate) static MEANINGS: [Meaning; 5] = [
    Meaning {
        name: "TooLong",
        short: "the script is over 16,777,216 bytes",
        text: "Line 0 means the script. Begin it later, at a minute at which nothing runs.",
    },
    Meaning {
        name: "BadLine",
        short: "other words or blanks, or a start or stamp out of place",
        text: "Words are separated by one space, with none at the end. The start comes once and
first, and the stamps directly after it, one for each job.
crontab:
  0 1 * * * /usr/bin/backup
wrong:
  start 2024-03-10 00:59 up
  minute  2024-03-10 01:00
right:
  start 2024-03-10 00:59 up
  minute 2024-03-10 01:00",
    },
    Meaning {
        name: "BadDate",
        short: "a date is none, or before 1970-01-02, a start's before 1970-01-04",
        text: "Dates are YYYY-MM-DD, times HH:MM. A carriage return at the line's end belongs
to the date: end lines with a newline alone.
crontab:
  0 1 * * * /usr/bin/backup
wrong:
  start 2023-02-29 00:59 up
right:
  start 2024-02-29 00:59 up",
    },
    Meaning {
        name: "UnknownName",
        short: "no command on that line, or no such identifier",
        text: "Lines of the table are counted from 1, including comments, settings and empty
lines.
crontab:
  MAILTO=root
  0 1 * * * /usr/bin/backup
wrong:
  start 2024-03-10 00:59 up
  minute 2024-03-10 01:00
  begin line 1
right:
  start 2024-03-10 00:59 up
  minute 2024-03-10 01:00
  begin line 2",
    },
    Meaning {
        name: "NoStart",
        short: "the first line that counts is no start, or none counts",
        text: "Say first when the script begins, and whether the daemon is up then.
If all its lines are empty or comments, the fault is at line 0.
crontab:
  0 1 * * * /usr/bin/backup
wrong:
  minute 2024-03-10 01:00
right:
  start 2024-03-10 00:59 up
  minute 2024-03-10 01:00",
    },
];
