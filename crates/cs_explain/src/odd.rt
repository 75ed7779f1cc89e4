//! What `lint` calls odd (`crontab(5)`, and Debian's cron).
use crate::meaning::Meaning;

/// In the order of subjects: schedules, commands, settings, lines, the table, declarations.
pub(crate) static MEANINGS: [Meaning; 23] = [
    Meaning {
        name: "EachMinute",
        short: "the minute is *, and the hour one number",
        text: "Sixty runs begin in that hour, where mostly one is meant. Write the minute, or
0-59 if all sixty are meant.
wrong:
  * 3 * * * /usr/bin/backup
right:
  0 3 * * * /usr/bin/backup",
    },
    Meaning {
        name: "UnevenStep",
        short: "a step doesn't divide its hour, day or month evenly",
        text: "The step */7 counts from minute 0 in each hour, so 56 is followed by 0 after 4
minutes. Take a divisor of 60 for minutes, one of 24 for hours, and list days of
the month. A range such as 0-59/7 says that the short gap is meant. A step past
the hour, such as */90, is due at minute 0 alone: write 0.
wrong:
  */7 * * * * /usr/bin/poll
right:
  */6 * * * * /usr/bin/poll",
    },
    Meaning {
        name: "BothDays",
        short: "neither the day of the month nor the weekday begins with *",
        text: r#"Either is enough: the line is due on the 13th, and on each Friday too. To ask
for both, leave one of them to the command.
wrong:
  0 12 13 * 5 /usr/bin/report
right:
  0 12 13 * * [ "$(date +\%u)" = 5 ] && /usr/bin/report"#,
    },
    Meaning {
        name: "SixthField",
        short: "a command begins with what reads as a sixth field",
        text: "Cron has five fields and runs the rest: * as a program is the first file of the
home folder. Quartz, Spring and robfig/cron, with its option for seconds, have
the seconds in front, and Quartz may have the year at the end. Drop these two;
where there are none, drop the field that is too many.
wrong:
  0 15 3 * * * /usr/bin/backup
right:
  15 3 * * * /usr/bin/backup",
    },
    Meaning {
        name: "SummerTime",
        short: "a line is due in minutes that summer time skips or repeats",
        text: "'cronsafe lint --zone FILE' reports it. Debian's cron runs a line of skipped
minutes right after them, beside what is due then, and one of repeated minutes
only the first time. A line with * in front of its minute goes by the clocks:
its runs are skipped, or come both times. Move the line out of these hours, so
from 30 2 * * * to 30 4 * * *, or see that nothing is lost by either.",
    },
    Meaning {
        name: "PercentSign",
        short: "a command holds a % without a backslash before it",
        text: r#"The command ends there, even within quotes. The rest is its standard input, in
which each further % is a newline. Write \% for a percent sign.
wrong:
  0 3 * * * /usr/bin/backup --to /srv/$(date +%F)
right:
  0 3 * * * /usr/bin/backup --to /srv/$(date +\%F)"#,
    },
    Meaning {
        name: "LongCommand",
        short: "a command is over 998 bytes",
        text: "Debian's cron refuses the table then. Put the command into a script, and call
the script.",
    },
    Meaning {
        name: "Background",
        short: "a command ends in &",
        text: "The run ends at once, and what it has started goes on without its lock and past
its longest time. Cron never makes one command wait for another, so nothing is
gained by the &.
wrong:
  0 3 * * * /usr/bin/backup &
right:
  0 3 * * * /usr/bin/backup",
    },
    Meaning {
        name: "CommandComment",
        short: "a # follows a blank in a command, and no quote or backslash it",
        text: "A comment needs a line of its own: after a command it is part of it, and the
shell ignores it.
wrong:
  30 23 * * * /usr/bin/backup # nightly
right:
  # nightly
  30 23 * * * /usr/bin/backup",
    },
    Meaning {
        name: "Unexpanded",
        short: "the value of a setting has $NAME or ${ in it",
        text: "A value is taken as it stands: PATH would begin with a folder named $HOME. Write
out what is meant.
wrong:
  PATH=$HOME/bin:/usr/bin:/bin
right:
  PATH=/home/joe/bin:/usr/bin:/bin",
    },
    Meaning {
        name: "TimeZone",
        short: "TZ is set",
        text: "Commands get it, but when they are due goes by the daemon's own time, as with
Debian's cron. Set it in the commands that need it.
wrong:
  TZ=Europe/Vienna
  0 8 * * * /usr/bin/report
right:
  0 8 * * * TZ=Europe/Vienna /usr/bin/report",
    },
    Meaning {
        name: "ValueComment",
        short: "a # follows a blank in a value without quotes",
        text: "A comment needs a line of its own: after a value it is part of it. Quotes around
the value say that this is meant.
wrong:
  MAILTO=root # the operator
right:
  # the operator
  MAILTO=root",
    },
    Meaning {
        name: "Backslash",
        short: "a setting or a command ends with a backslash",
        text: r"No line is continued in a crontab: the next one is read by itself. Write all of
it on one line, or in a script.
wrong:
  30 23 * * * /usr/bin/backup \
right:
  30 23 * * * /usr/bin/backup --full",
    },
    Meaning {
        name: "CarriageReturn",
        short: "a setting or a command ends with a carriage return",
        text: "The shell takes it as a part of the command's last word, and it is part of a
setting's value, from which Debian's cron drops it. Save the file with newlines
alone at the ends of its lines.",
    },
    Meaning {
        name: "SameLine",
        short: "a line is that of a command above, with no setting between",
        text: "Both are due at the same minutes, and the command then runs twice at once.
Remove one.
wrong:
  0 3 * * * /usr/bin/backup
  0 3 * * * /usr/bin/backup
right:
  0 3 * * * /usr/bin/backup",
    },
    Meaning {
        name: "NoNewline",
        short: "the last line of a crontab has no newline",
        text: "It is read here, but Debian's crontab refuses such a table, and its cron ignores
one in /etc/cron.d.",
    },
    Meaning {
        name: "UnusedGroup",
        short: "no entry is in a group that is listed",
        text: r#"Its lock guards nothing: perhaps an entry lacks its group.
crontab:
  30 23 * * * /usr/bin/backup
wrong declarations:
  {"capacity": 1, "groups": [{"name": "disk", "exclusive": true}],
   "cron": [{"line": 1, "max": 30}]}
right declarations:
  {"capacity": 1, "groups": [{"name": "disk", "exclusive": true}],
   "cron": [{"line": 1, "max": 30, "group": "disk"}]}"#,
    },
    Meaning {
        name: "OtherLock",
        short: "flock locks a command, and its entry has no group or another mode",
        text: r#"The command takes its lock whatever is declared. So its entry needs a group for
that lock, and the mode of its flock: try or skip for -n, shared for -s, else
wait. Or take flock away, and have 'cronsafe run' take the lock.
crontab:
  30 23 * * * flock -n /run/lock/disk /usr/bin/backup
wrong declarations:
  {"capacity": 1, "groups": [{"name": "disk", "exclusive": true}],
   "cron": [{"line": 1, "max": 30, "group": "disk", "mode": "wait"}]}
right declarations:
  {"capacity": 1, "groups": [{"name": "disk", "exclusive": true}],
   "cron": [{"line": 1, "max": 30, "group": "disk", "mode": "try"}]}"#,
    },
    Meaning {
        name: "MixedLocks",
        short: "one lock file is in two groups, or two lock files are in one group",
        text: r#"Commands that lock one file keep each other waiting or out, and those that lock
two files don't, whatever their groups are. Give each lock file its own group.
crontab:
  0 3 * * * flock /run/lock/disk /usr/bin/backup
  0 4 * * * flock /run/lock/tape /usr/bin/archive
wrong declarations:
  {"capacity": 2, "groups": [{"name": "disk", "exclusive": true}],
   "cron": [{"line": 1, "max": 30, "group": "disk", "mode": "wait"},
            {"line": 2, "max": 30, "group": "disk", "mode": "wait"}]}
right declarations:
  {"capacity": 2, "groups": [{"name": "disk", "exclusive": true},
                             {"name": "tape", "exclusive": true}],
   "cron": [{"line": 1, "max": 30, "group": "disk", "mode": "wait"},
            {"line": 2, "max": 30, "group": "tape", "mode": "wait"}]}"#,
    },
    Meaning {
        name: "NoOwnLock",
        short: "an entry takes a lock, its command takes none, and another does",
        text: r#"'cronsafe run' takes the lock for the command, but cron doesn't: under cron the
runs of the group may overlap. Put flock before this command as well, or take
flock away from the others and leave all locks to 'cronsafe run'.
declarations:
  {"capacity": 2, "groups": [{"name": "disk", "exclusive": true},
                             {"name": "tape", "exclusive": true}],
   "cron": [{"line": 1, "max": 30, "group": "disk", "mode": "try"},
            {"line": 2, "max": 30, "group": "tape", "mode": "wait"}]}
wrong:
  30 23 * * * /usr/bin/backup
  0 4 * * * flock /run/lock/tape /usr/bin/archive
right:
  30 23 * * * flock -n /run/lock/disk /usr/bin/backup
  0 4 * * * flock /run/lock/tape /usr/bin/archive"#,
    },
    Meaning {
        name: "RebootLock",
        short: "an @reboot command may take the lock of a group",
        text: r#"The plan has no @reboot line: it doesn't count with a run that takes the lock at
startup and holds it while others wait for it, or find it held. Give such a
command a lock file of its own.
declarations:
  {"capacity": 1, "groups": [{"name": "disk", "exclusive": true}],
   "cron": [{"line": 1, "max": 30, "group": "disk", "mode": "wait"}],
   "left_out": [{"line": 2}]}
wrong:
  30 23 * * * flock /run/lock/disk /usr/bin/backup
  @reboot flock /run/lock/disk /usr/bin/mirror
right:
  30 23 * * * flock /run/lock/disk /usr/bin/backup
  @reboot flock /run/lock/mirror /usr/bin/mirror"#,
    },
    Meaning {
        name: "ShortMax",
        short: "a command's timeout allows more minutes than its max",
        text: r#"The run may go on until timeout ends it, past the longest time that the plan
counts with. Its minutes are those of the timeout and of its -k, rounded up, and
one more for the end. Raise the max, or shorten the timeout.
declarations:
  {"capacity": 1, "cron": [{"line": 1, "max": 30}]}
wrong:
  30 23 * * * timeout 1h /usr/bin/backup
right:
  30 23 * * * timeout 29m /usr/bin/backup"#,
    },
    Meaning {
        name: "NoWhen",
        short: "several lines have one command, and an entry of one has no when",
        text: r#"The entry has only the command and the number of its line. If the lines change
places, it declares the other one. Add the schedule of its line, as
'cronsafe draft' does.
crontab:
  0 3 * * * /usr/bin/sync
  0 15 * * 6 /usr/bin/sync
wrong declarations:
  {"capacity": 1, "cron": [
    {"line": 1, "max": 30, "command": "/usr/bin/sync"},
    {"line": 2, "max": 90, "command": "/usr/bin/sync", "when": "0 15 * * 6"}]}
right declarations:
  {"capacity": 1, "cron": [
    {"line": 1, "max": 30, "command": "/usr/bin/sync", "when": "0 3 * * *"},
    {"line": 2, "max": 90, "command": "/usr/bin/sync", "when": "0 15 * * 6"}]}"#,
    },
];
