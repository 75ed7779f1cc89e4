//! The faults of an anacrontab (`anacrontab(5)`, and the limits of this profile).
use crate::meaning::Meaning;

/// In the order of their numbers.
pub(crate) static MEANINGS: [Meaning; 11] = [
    Meaning {
        name: "TooLong",
        short: "the file is over 1,048,576 bytes, or a line over 4,096",
        text: "As in a crontab: put a long command into a script, and call the script.",
    },
    Meaning {
        name: "NulByte",
        short: "a line holds a zero byte, in a comment too",
        text: "As in a crontab: save the file as UTF-8, or delete the byte.",
    },
    Meaning {
        name: "BadSetting",
        short: "a line that begins as a setting isn't one",
        text: "A line that begins with a letter, _ or a quote is a setting, NAME=VALUE; a job's
line begins with digits or @.
wrong:
  daily 5 clean /usr/bin/clean
right:
  @daily 5 clean /usr/bin/clean",
    },
    Meaning {
        name: "UnknownWord",
        short: "the period is a word but @daily, @weekly and @monthly",
        text: "Any other period is a number of days.
wrong:
  @yearly 10 archive /usr/bin/archive
right:
  365 10 archive /usr/bin/archive",
    },
    Meaning {
        name: "MissingField",
        short: "one of the four parts is absent",
        text: "A job's line is PERIOD DELAY IDENTIFIER COMMAND, separated by blanks.
wrong:
  7 10 cron.weekly
right:
  7 10 cron.weekly /usr/bin/weekly",
    },
    Meaning {
        name: "BadPeriod",
        short: "the period isn't digits with a value from 1 to 100,000",
        text: "It is a number of days, or @daily, @weekly or @monthly.
wrong:
  0 10 cron.daily /usr/bin/daily
right:
  1 10 cron.daily /usr/bin/daily",
    },
    Meaning {
        name: "BadDelay",
        short: "the delay isn't digits with a value from 0 to 100,000",
        text: "It is a number of minutes.
wrong:
  7 10m cron.weekly /usr/bin/weekly
right:
  7 10 cron.weekly /usr/bin/weekly",
    },
    Meaning {
        name: "BadIdentifier",
        short: "the identifier names no stamp file",
        text: "Its stamp file has this name: 1 to 200 bytes of UTF-8 without blanks and /, but
not . or ..
wrong:
  7 10 cron/weekly /usr/bin/weekly
right:
  7 10 cron.weekly /usr/bin/weekly",
    },
    Meaning {
        name: "TwiceNamed",
        short: "the identifier stood before",
        text: "Two jobs would share a stamp, and one of them would hardly ever run. Give each
job its own identifier.
wrong:
  1 5 backup /usr/bin/backup
  7 10 backup /usr/bin/backup --full
right:
  1 5 backup /usr/bin/backup
  7 10 backup.full /usr/bin/backup --full",
    },
    Meaning {
        name: "Continued",
        short: "a setting or job line ends with a backslash",
        text: r"Continued lines aren't read here. Write the job on one line.
wrong:
  7 10 cron.weekly /usr/bin/weekly \
    --quiet
right:
  7 10 cron.weekly /usr/bin/weekly --quiet",
    },
    Meaning {
        name: "TooManyJobs",
        short: "it is the 65th job",
        text: "An anacrontab has at most 64 jobs. Let one job call a script that does the work
of several.",
    },
];
