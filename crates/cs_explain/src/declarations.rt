//! The faults of declarations, by themselves and beside the tables.
use crate::meaning::Meaning;

/// In the order of their numbers.
pub(crate) static MEANINGS: [Meaning; 24] = [
    Meaning {
        name: "NotJson",
        short: "the bytes aren't JSON",
        text: r#"Often a comma follows the last entry, there is a comment, or a bracket is
missing.
crontab:
  30 23 * * * /usr/bin/backup
wrong:
  {"capacity": 1, "cron": [{"line": 1, "max": 30},]}
right:
  {"capacity": 1, "cron": [{"line": 1, "max": 30}]}"#,
    },
    Meaning {
        name: "BadShape",
        short: "a member is unknown or absent, or has no value of its kind",
        text: r#"The members are capacity, offset or zone, hours, pass, groups, default, cron,
anacron and left_out. Those of a cron entry are line, command, when, max, guess,
weight, group, mode, name and parts; of a part name and max; of left_out line,
command and when, of which line or command is enough; of default max and weight.
Each object may have a note, a text. Numbers are whole and have no quotes; the
offset is -1439 to 1439.
crontab:
  30 23 * * * /usr/bin/backup
wrong:
  {"capacity": 1, "cron": [{"line": 1, "max": "30"}]}
right:
  {"capacity": 1, "cron": [{"line": 1, "max": 30}]}"#,
    },
    Meaning {
        name: "NoSuchLine",
        short: "no command on that line, no such command, or no such identifier",
        text: r#"Lines are counted from 1, including comments, settings and empty lines. A
command is compared byte for byte.
crontab:
  MAILTO=root
  30 23 * * * /usr/bin/backup
wrong:
  {"capacity": 1, "cron": [{"line": 1, "max": 30}]}
right:
  {"capacity": 1, "cron": [{"line": 2, "max": 30}]}"#,
    },
    Meaning {
        name: "Undeclared",
        short: "a job that isn't @reboot has no entry, and there is no default",
        text: r#"Each command line needs an entry in cron, and each job of the anacrontab one in
anacron, unless default says what jobs without an entry have. A line in left_out
is no job of the plan, and needs none.
crontab:
  30 23 * * * /usr/bin/backup
  0 1 * * * /usr/bin/report
wrong:
  {"capacity": 1, "cron": [{"line": 1, "max": 30}]}
right:
  {"capacity": 1, "cron": [{"line": 1, "max": 30}], "default": {"max": 10}}"#,
    },
    Meaning {
        name: "TwiceDeclared",
        short: "a group, line or identifier comes a second time",
        text: r#"Merge the two entries, or correct the line of one. A line in left_out has no
entry in cron.
crontab:
  30 23 * * * /usr/bin/backup
  0 1 * * * /usr/bin/report
wrong:
  {"capacity": 1, "cron": [{"line": 1, "max": 30}, {"line": 1, "max": 10}]}
right:
  {"capacity": 1, "cron": [{"line": 1, "max": 30}, {"line": 2, "max": 10}]}"#,
    },
    Meaning {
        name: "BadMax",
        short: "max is outside 1 to 4320",
        text: r#"It is the longest time of a run in minutes, and at most three days.
crontab:
  30 23 * * * /usr/bin/backup
wrong:
  {"capacity": 1, "cron": [{"line": 1, "max": 0}]}
right:
  {"capacity": 1, "cron": [{"line": 1, "max": 30}]}"#,
    },
    Meaning {
        name: "BadWeight",
        short: "weight is outside 1 to 64",
        text: r#"It is what a run takes of the capacity. The default is 1.
crontab:
  30 23 * * * /usr/bin/backup
wrong:
  {"capacity": 64, "cron": [{"line": 1, "max": 30, "weight": 100}]}
right:
  {"capacity": 64, "cron": [{"line": 1, "max": 30, "weight": 64}]}"#,
    },
    Meaning {
        name: "BadCapacity",
        short: "capacity is outside 1 to 64",
        text: r#"It is what the running jobs may weigh together.
crontab:
  30 23 * * * /usr/bin/backup
wrong:
  {"capacity": 0, "cron": [{"line": 1, "max": 30}]}
right:
  {"capacity": 1, "cron": [{"line": 1, "max": 30}]}"#,
    },
    Meaning {
        name: "ModeNeedsGroup",
        short: "mode skip, try, wait or shared without a group",
        text: r#"The mode says what a job does with its group's lock. Name the group, or remove
the mode.
crontab:
  30 23 * * * /usr/bin/backup
wrong:
  {"capacity": 1, "cron": [{"line": 1, "max": 30, "mode": "skip"}]}
right:
  {"capacity": 1, "groups": [{"name": "disk", "exclusive": true}],
   "cron": [{"line": 1, "max": 30, "mode": "skip", "group": "disk"}]}"#,
    },
    Meaning {
        name: "UnknownGroup",
        short: "a group that isn't listed",
        text: r#"List each group in groups, with the same spelling and case.
crontab:
  30 23 * * * /usr/bin/backup
wrong:
  {"capacity": 1, "groups": [{"name": "disk", "exclusive": true}],
   "cron": [{"line": 1, "max": 30, "group": "Disk"}]}
right:
  {"capacity": 1, "groups": [{"name": "disk", "exclusive": true}],
   "cron": [{"line": 1, "max": 30, "group": "disk"}]}"#,
    },
    Meaning {
        name: "TooManyGroups",
        short: "it is the 65th group",
        text: "There are at most 64. Remove the groups that no job is in.",
    },
    Meaning {
        name: "BadHours",
        short: "not 0 <= from < to <= 1440",
        text: r#"hours is [from, to], minutes of the day: catch-up may start a job from the first
up to, but not including, the second. They can't go over midnight.
crontab:
  30 23 * * * /usr/bin/backup
wrong:
  {"capacity": 1, "hours": [1320, 120], "cron": [{"line": 1, "max": 30}]}
right:
  {"capacity": 1, "hours": [0, 120], "cron": [{"line": 1, "max": 30}]}"#,
    },
    Meaning {
        name: "ModeOnAnacron",
        short: "an anacron entry has mode, whatever it is",
        text: r#"Anacron jobs take no lock. Remove the mode.
anacrontab:
  7 10 cron.weekly /usr/bin/weekly
wrong:
  {"capacity": 1, "anacron": [{"id": "cron.weekly", "max": 9, "mode": "none"}]}
right:
  {"capacity": 1, "anacron": [{"id": "cron.weekly", "max": 9}]}"#,
    },
    Meaning {
        name: "RebootLine",
        short: "an @reboot line that isn't left out",
        text: r#"Outages would start it without bound, so that any number of its runs could
overlap. Put its line into left_out: the plan is then the rest of the table, and
'run' never starts it. Have it started as a service.
crontab:
  30 23 * * * /usr/bin/backup
  @reboot /usr/bin/warm-up
wrong:
  {"capacity": 1, "cron": [{"line": 1, "max": 30}]}
right:
  {"capacity": 1, "cron": [{"line": 1, "max": 30}],
   "left_out": [{"line": 2, "command": "/usr/bin/warm-up"}]}"#,
    },
    Meaning {
        name: "BadPassMinute",
        short: "pass is outside 0 to 1439",
        text: r#"It is the minute of the day at which a catch-up pass begins. One also begins
whenever the daemon comes up.
crontab:
  30 23 * * * /usr/bin/backup
wrong:
  {"capacity": 1, "pass": 1440, "cron": [{"line": 1, "max": 30}]}
right:
  {"capacity": 1, "pass": 0, "cron": [{"line": 1, "max": 30}]}"#,
    },
    Meaning {
        name: "OtherCommand",
        short: "the command on that line is another than the entry's",
        text: r#"An edit has moved the command to another line, or changed it. Correct the line's
number, or the command once you have seen that the entry's time and group still
fit it, or that its line still belongs in left_out. 'cronsafe lint' says if
lines have moved. A command is compared byte for byte, to the end of its line.
crontab:
  0 1 * * * /usr/bin/report
  30 23 * * * /usr/bin/backup
wrong:
  {"capacity": 1, "cron": [{"line": 1, "max": 30, "command": "/usr/bin/backup"},
                           {"line": 2, "max": 10}]}
right:
  {"capacity": 1, "cron": [{"line": 2, "max": 30, "command": "/usr/bin/backup"},
                           {"line": 1, "max": 10}]}"#,
    },
    Meaning {
        name: "AmbiguousCommand",
        short: "several lines have the command of an entry without a number",
        text: r#"An entry of cron or left_out with a command alone belongs to the one line that
has it. Where several have it, add the line's number.
crontab:
  0 1 * * * /usr/bin/poll
  0 13 * * * /usr/bin/poll
wrong:
  {"capacity": 1, "cron": [{"command": "/usr/bin/poll", "max": 10}]}
right:
  {"capacity": 1, "cron": [{"line": 1, "command": "/usr/bin/poll", "max": 10},
                           {"line": 2, "command": "/usr/bin/poll", "max": 20}]}"#,
    },
    Meaning {
        name: "BadParts",
        short: "two parts share a name, one isn't 1 to 4320, or the sum is above max",
        text: r#"The parts are what run-parts(8) runs, one after the other, so max is at least
the sum of theirs. Each has a name of its own, and a max from 1 to 4320.
'cronsafe lint' says which part is wrong.
crontab:
  25 6 * * * run-parts /etc/cron.daily
wrong:
  {"capacity": 1, "cron": [{"line": 1, "max": 60,
   "parts": [{"name": "logrotate", "max": 60}, {"name": "man-db", "max": 30}]}]}
right:
  {"capacity": 1, "cron": [{"line": 1, "max": 90,
   "parts": [{"name": "logrotate", "max": 60}, {"name": "man-db", "max": 30}]}]}"#,
    },
    Meaning {
        name: "OtherSchedule",
        short: "the command on that line has another schedule than the entry's",
        text: r#"An entry of cron or left_out may give the schedule of its line as 'when'. Where
the line's schedule has changed, judge the plan again with the entry corrected.
crontab:
  0 1 * * * /usr/bin/report
wrong:
  {"capacity": 1, "cron": [{"line": 1, "max": 30, "when": "0 5 * * *"}]}
right:
  {"capacity": 1, "cron": [{"line": 1, "max": 30, "when": "0 1 * * *"}]}"#,
    },
    Meaning {
        name: "OtherParts",
        short: "a gathered table shows other parts than those of the entry",
        text: r#"The comments above a line of a gathered table show what run-parts(8) runs there.
The parts of an entry are those, in any order: 'cronsafe lint' says which came
or went, and 'cronsafe draft --update' writes them anew.
crontab:
  CRONSAFE_TABLE=gathered
  #@ /etc/crontab:19 root
  #@ part logrotate
  25 6 * * * run-parts /etc/cron.daily
wrong:
  {"capacity": 1, "cron": [{"line": 4, "max": 60,
   "parts": [{"name": "man-db", "max": 60}]}]}
right:
  {"capacity": 1, "cron": [{"line": 4, "max": 60,
   "parts": [{"name": "logrotate", "max": 60}]}]}"#,
    },
    Meaning {
        name: "BadZone",
        short: "the zone is no rule that can be followed",
        text: r#"zone is a value of TZ as in tzset(3), with the days on which the clocks change;
the last line of a zone's file in /usr/share/zoneinfo is one. cronsafe(1) says
at day which rules are refused.
crontab:
  30 23 * * * /usr/bin/backup
wrong:
  {"capacity": 1, "zone": "Europe/Berlin", "cron": [{"line": 1, "max": 30}]}
right:
  {"capacity": 1, "zone": "CET-1CEST,M3.5.0,M10.5.0/3",
   "cron": [{"line": 1, "max": 30}]}"#,
    },
    Meaning {
        name: "HoursInZone",
        short: "a zone is declared, and hours that aren't all hours",
        text: r#"anacron takes its catch-up hours by the zone's clock, and cronsafe by one offset
all year. So beside a zone, catch-up may start a job at any hour.
crontab:
  30 23 * * * /usr/bin/backup
wrong:
  {"capacity": 1, "zone": "CET-1CEST,M3.5.0,M10.5.0/3", "hours": [0, 120],
   "cron": [{"line": 1, "max": 30}]}
right:
  {"capacity": 1, "zone": "CET-1CEST,M3.5.0,M10.5.0/3",
   "cron": [{"line": 1, "max": 30}]}"#,
    },
    Meaning {
        name: "PassInZone",
        short: "a zone and a pass minute are declared",
        text: r#"What starts anacron each day does so by the zone's clock, and pass is by one
offset all year. Leave it out, or declare an offset in place of the zone.
crontab:
  30 23 * * * /usr/bin/backup
wrong:
  {"capacity": 1, "zone": "CET-1CEST,M3.5.0,M10.5.0/3", "pass": 450,
   "cron": [{"line": 1, "max": 30}]}
right:
  {"capacity": 1, "offset": 60, "pass": 450,
   "cron": [{"line": 1, "max": 30}]}"#,
    },
    Meaning {
        name: "StartsTwice",
        short: "after clocks go forward, cron starts the line twice in a minute",
        text: r#"Right after clocks go forward, cron starts a line once for each skipped minute
that it lists, and once more if it lists that minute too. A plan has one run of
a job a minute. Write the line so that it is due once, or begin its minute or
its hour with *: then it goes by the clock alone.
crontab:
  0 2,3 * * * /usr/bin/backup
wrong:
  {"capacity": 1, "zone": "CET-1CEST,M3.5.0,M10.5.0/3",
   "cron": [{"line": 1, "max": 30}]}
right:
  {"capacity": 1, "offset": 60, "cron": [{"line": 1, "max": 30}]}"#,
    },
];
