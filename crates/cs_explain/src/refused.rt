//! The rules by which a certificate is refused.
use crate::meaning::Meaning;

/// In the order of their numbers.
pub(crate) static MEANINGS: [Meaning; 8] = [
    Meaning {
        name: "ClassNotDue",
        short: "a class hasn't the due minutes of a kind of day",
        text: r#"The table has changed, or the certificate is of another one. Make a new one.
crontab:
  30 23 * * * /usr/bin/backup
declarations:
  {"capacity": 1, "cron": [{"line": 1, "max": 30}]}
wrong:
  {"version": 1, "reach": [], "kinds": {"class": 0},
   "classes": [{"due": [[0, [1409]]], "backlog": []}],
   "pairs": [{"of": [0, 0], "tree": {"list": [[0, 0, 1410]]}}]}
right:
  {"version": 1, "reach": [], "kinds": {"class": 0},
   "classes": [{"due": [[0, [1410]]], "backlog": []}],
   "pairs": [{"of": [0, 0], "tree": {"list": [[0, 0, 1410]]}}]}"#,
    },
    Meaning {
        name: "MissingPair",
        short: "successive kinds of days have no stretch",
        text: r#"The classes of any two days that can follow each other (of three or four if runs
reach so far) have to be listed. Make a new certificate.
crontab:
  30 23 * * * /usr/bin/backup
declarations:
  {"capacity": 1, "cron": [{"line": 1, "max": 30}]}
wrong:
  {"version": 1, "reach": [], "kinds": {"class": 0},
   "classes": [{"due": [[0, [1410]]], "backlog": []}],
   "pairs": []}
right:
  {"version": 1, "reach": [], "kinds": {"class": 0},
   "classes": [{"due": [[0, [1410]]], "backlog": []}],
   "pairs": [{"of": [0, 0], "tree": {"list": [[0, 0, 1410]]}}]}"#,
    },
    Meaning {
        name: "BacklogRises",
        short: "a group's bound falls too fast, or ignores a run",
        text: r#"A bound falls by at most one a minute, and rises by the longest time of each run
that arrives: here 9 of 10 minutes are left at midnight. Make a new certificate.
crontab:
  59 23 * * * /usr/bin/backup
declarations:
  {"capacity": 1, "groups": [{"name": "disk", "exclusive": true}],
   "cron": [{"line": 1, "max": 10, "group": "disk", "mode": "wait"}]}
wrong:
  {"version": 3, "kinds": {"class": 0},
   "reach": [[0, 10]], "classes": [{"carry": [[0, 8]]}]}
right:
  {"version": 3, "kinds": {"class": 0},
   "reach": [[0, 10]], "classes": [{"carry": [[0, 9]]}]}"#,
    },
    Meaning {
        name: "ReachTooShort",
        short: "a job that waits has no reach, or too short a one",
        text: r#"Within its reach the bound of its group has to be 0: then a run that waits has
had its turn and has ended. Make a new certificate.
crontab:
  59 23 * * * /usr/bin/backup
declarations:
  {"capacity": 1, "groups": [{"name": "disk", "exclusive": true}],
   "cron": [{"line": 1, "max": 10, "group": "disk", "mode": "wait"}]}
wrong:
  {"version": 3, "kinds": {"class": 0},
   "reach": [[0, 9]], "classes": [{"carry": [[0, 9]]}]}
right:
  {"version": 3, "kinds": {"class": 0},
   "reach": [[0, 10]], "classes": [{"carry": [[0, 9]]}]}"#,
    },
    Meaning {
        name: "WindowMissing",
        short: "the leaf of a minute doesn't list a window that holds it",
        text: r#"The table or a longest time has changed, or the certificate is of other files.
Make a new one.
crontab:
  30 23 * * * /usr/bin/backup
declarations:
  {"capacity": 1, "cron": [{"line": 1, "max": 30}]}
wrong:
  {"version": 1, "reach": [], "kinds": {"class": 0},
   "classes": [{"due": [[0, [1410]]], "backlog": []}],
   "pairs": [{"of": [0, 0], "tree": {"list": []}}]}
right:
  {"version": 1, "reach": [], "kinds": {"class": 0},
   "classes": [{"due": [[0, [1410]]], "backlog": []}],
   "pairs": [{"of": [0, 0], "tree": {"list": [[0, 0, 1410]]}}]}"#,
    },
    Meaning {
        name: "Collision",
        short: "windows of an exclusive group hold the same minute",
        text: r#"Two runs that must not overlap may both run then, and don't both take the lock.
Move one, shorten its longest time, or let both take the lock.
crontab:
  30 23 * * * /usr/bin/backup
  0 0 * * * /usr/bin/report
certificate:
  {"version": 3, "reach": [], "kinds": {"class": 0}, "classes": [{"carry": []}]}
wrong declarations:
  {"capacity": 2, "groups": [{"name": "disk", "exclusive": true}],
   "cron": [{"line": 1, "max": 60, "group": "disk"},
            {"line": 2, "max": 10, "group": "disk"}]}
right declarations:
  {"capacity": 2, "groups": [{"name": "disk", "exclusive": true}],
   "cron": [{"line": 1, "max": 30, "group": "disk"},
            {"line": 2, "max": 10, "group": "disk"}]}"#,
    },
    Meaning {
        name: "OverCapacity",
        short: "what may run at a minute weighs more than the capacity",
        text: r#"Move a job, shorten its longest time, lower its weight, or raise the capacity if
the machine has room.
crontab:
  0 1 * * * /usr/bin/backup
  30 1 * * * /usr/bin/index
certificate:
  {"version": 3, "reach": [], "kinds": {"class": 0}, "classes": [{"carry": []}]}
wrong declarations:
  {"capacity": 1, "cron": [{"line": 1, "max": 60}, {"line": 2, "max": 10}]}
right declarations:
  {"capacity": 2, "cron": [{"line": 1, "max": 60}, {"line": 2, "max": 10}]}"#,
    },
    Meaning {
        name: "SkipBlocked",
        short: "a skip job may find its lock held when it is due",
        text: r#"It would be skipped then, and mode skip promises that no run is. Move it or the
other job, shorten the other one's longest time, or let it wait. Mode try takes
the lock as 'flock -n' does, without that promise.
crontab:
  0 1 * * * /usr/bin/backup
  30 1 * * * /usr/bin/index
certificate:
  {"version": 3, "reach": [], "kinds": {"class": 0}, "classes": [{"carry": []}]}
wrong declarations:
  {"capacity": 2, "groups": [{"name": "disk", "exclusive": true}],
   "cron": [{"line": 1, "max": 60, "group": "disk", "mode": "skip"},
            {"line": 2, "max": 10, "group": "disk", "mode": "skip"}]}
right declarations:
  {"capacity": 2, "groups": [{"name": "disk", "exclusive": true}],
   "cron": [{"line": 1, "max": 30, "group": "disk", "mode": "skip"},
            {"line": 2, "max": 10, "group": "disk", "mode": "skip"}]}"#,
    },
];
