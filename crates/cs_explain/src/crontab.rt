//! The faults of a crontab (`crontab(5)`, and the limits of this profile).
use crate::meaning::Meaning;

/// In the order of their numbers.
pub(crate) static MEANINGS: [Meaning; 12] = [
    Meaning {
        name: "TooLong",
        short: "the file is over 1,048,576 bytes, or a line over 4,096",
        text: "A line's newline doesn't count, and line 0 means the file. Put a long command
into a script, and call the script.",
    },
    Meaning {
        name: "NulByte",
        short: "a line holds a zero byte, in a comment too",
        text: "A table saved as UTF-16 is full of zero bytes: save it as UTF-8. In a damaged
file, delete the byte.",
    },
    Meaning {
        name: "BadSetting",
        short: "a line that begins as a setting isn't one",
        text: "A line that begins with a letter, _ or a quote is a setting, NAME=VALUE. Name
and = are required, and only blanks may follow the quote that closes a value.
Nor does export stand in front of the name.
wrong:
  PATH /usr/local/bin:/usr/bin:/bin
right:
  PATH=/usr/local/bin:/usr/bin:/bin",
    },
    Meaning {
        name: "UnknownWord",
        short: "the word after @ is none that a crontab knows",
        text: "The words are @yearly, @annually, @monthly, @weekly, @daily, @midnight, @hourly
and @reboot, in lower case. Write */5 * * * * for @every 5m of robfig/cron.
wrong:
  @Daily /usr/bin/clean
right:
  @daily /usr/bin/clean",
    },
    Meaning {
        name: "MissingField",
        short: "the line ends where a field should begin",
        text: "A command line is five fields (minute, hour, day of the month, month, weekday),
each followed by blanks, and a command.
wrong:
  30 23 * *
right:
  30 23 * * * /usr/bin/backup",
    },
    Meaning {
        name: "BadNumber",
        short: "no number, name, comma or end of the field where one should be",
        text: "Often a field is missing, and the command's first word is read as the fifth. A
field has no blanks, and names have three letters: jan to dec, sun to sat. Nor
are forms of others read: H of Jenkins, ?, L, W and 5#2 of Quartz, and 0~59 of
cronie. Debian's cron reads the last two as 5 and as 0. A byte order mark, which
some editors put in front of a file, is no number either.
wrong:
  30 23 * * /usr/bin/backup
right:
  30 23 * * * /usr/bin/backup",
    },
    Meaning {
        name: "OutOfField",
        short: "a number is outside its field",
        text: "Minute is 0 to 59, hour 0 to 23, day of the month 1 to 31, month 1 to 12 and
weekday 0 to 7 (0 and 7 are Sunday). Midnight is 0 0.
wrong:
  0 24 * * * /usr/bin/report
right:
  0 0 * * * /usr/bin/report",
    },
    Meaning {
        name: "Reversed",
        short: "a > b in a range a-b",
        text: "A range doesn't wrap over midnight or the end of a week, as it does for some
other daemons. Debian's cron takes 22-2 as no hour at all, so that the line
never runs. Write it as two.
wrong:
  0 22-2 * * * /usr/bin/watch
right:
  0 22-23,0-2 * * * /usr/bin/watch",
    },
    Meaning {
        name: "BadStep",
        short: "the step n isn't digits, or is 0",
        text: "The number after / is at least 1.
wrong:
  */0 * * * * /usr/bin/poll
right:
  */5 * * * * /usr/bin/poll",
    },
    Meaning {
        name: "StepOnNumber",
        short: "/ follows a single number",
        text: "A step follows * or a range. Some other daemons read 5/10 as 5-59/10; Debian's
cron refuses it.
wrong:
  5/10 * * * * /usr/bin/poll
right:
  5-59/10 * * * * /usr/bin/poll",
    },
    Meaning {
        name: "NoCommand",
        short: "nothing follows the fifth field or the word",
        text: "Write the command after the five fields, or after the word.
wrong:
  @daily
right:
  @daily /usr/bin/clean",
    },
    Meaning {
        name: "TooManyJobs",
        short: "it is the 257th command line, those of @reboot counted",
        text: "A table has at most 256 commands. Let one line call a script that does the work
of several.",
    },
];
