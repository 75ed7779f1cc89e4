//! The refusals of an event by `replay`.
use crate::meaning::Meaning;

/// In the order of their numbers.
pub(crate) static MEANINGS: [Meaning; 11] = [
    Meaning {
        name: "NotUp",
        short: "the daemon is down",
        text: "While it is down, only up and the ends of runs are possible.
crontab:
  0 1 * * * /usr/bin/backup
wrong:
  start 2024-03-10 00:59 down
  minute 2024-03-10 01:00
right:
  start 2024-03-10 00:59 down
  up 2024-03-10 01:00",
    },
    Meaning {
        name: "AlreadyUp",
        short: "the daemon is up",
        text: "Only a daemon that is down can come up.
crontab:
  0 1 * * * /usr/bin/backup
wrong:
  start 2024-03-10 00:00 up
  up 2024-03-10 00:30
right:
  start 2024-03-10 00:00 up
  down
  up 2024-03-10 00:30",
    },
    Meaning {
        name: "WrongMinute",
        short: "the minute isn't the next one, or is before the present one",
        text: "While the daemon is up, each minute has its own line. Write minutes that it
skipped as an outage, down and up.
crontab:
  0 1 * * * /usr/bin/backup
wrong:
  start 2024-03-10 00:00 up
  minute 2024-03-10 00:02
right:
  start 2024-03-10 00:00 up
  minute 2024-03-10 00:01
  minute 2024-03-10 00:02",
    },
    Meaning {
        name: "NotSettled",
        short: "a due job hasn't begun, or a waiting run could have its lock",
        text: "Everything that is due in a minute begins in it, and free locks are given,
before the next minute.
crontab:
  0 1 * * * /usr/bin/backup
wrong:
  start 2024-03-10 00:59 up
  minute 2024-03-10 01:00
  minute 2024-03-10 01:01
right:
  start 2024-03-10 00:59 up
  minute 2024-03-10 01:00
  begin line 1
  minute 2024-03-10 01:01",
    },
    Meaning {
        name: "NotDue",
        short: "the job isn't due now, or has begun",
        text: "A job begins once, in its due minute. What is due in the minute of the start, or
in that of an up, isn't started.
crontab:
  0 1 * * * /usr/bin/backup
wrong:
  start 2024-03-10 01:00 up
  begin line 1
right:
  start 2024-03-10 00:59 up
  minute 2024-03-10 01:00
  begin line 1",
    },
    Meaning {
        name: "LockHeld",
        short: "the lock is held",
        text: r#"A waiting run gets it after the run that holds it has ended.
crontab:
  0 1 * * * /usr/bin/backup
  0 1 * * * /usr/bin/index
declarations:
  {"capacity": 1, "groups": [{"name": "disk", "exclusive": true}],
   "cron": [{"line": 1, "max": 30, "group": "disk", "mode": "wait"},
            {"line": 2, "max": 10, "group": "disk", "mode": "wait"}]}
wrong:
  start 2024-03-10 00:59 up
  minute 2024-03-10 01:00
  begin line 1
  begin line 2
  got line 2 2024-03-10 01:00
right:
  start 2024-03-10 00:59 up
  minute 2024-03-10 01:00
  begin line 1
  begin line 2
  end line 1 2024-03-10 01:00
  got line 2 2024-03-10 01:00"#,
    },
    Meaning {
        name: "NotWaiting",
        short: "no such run waits",
        text: "It was due at another minute, or it runs already: the lock was free when it
began, or it takes none.
crontab:
  0 1 * * * /usr/bin/backup
wrong:
  start 2024-03-10 00:59 up
  minute 2024-03-10 01:00
  begin line 1
  got line 1 2024-03-10 01:00
right:
  start 2024-03-10 00:59 up
  minute 2024-03-10 01:00
  begin line 1",
    },
    Meaning {
        name: "NotRunning",
        short: "no such run is running",
        text: "A run is named by the minute at which it was due (of an anacron job: at which it
started), not by the minute at which it ends.
crontab:
  0 1 * * * /usr/bin/backup
wrong:
  start 2024-03-10 00:59 up
  minute 2024-03-10 01:00
  begin line 1
  minute 2024-03-10 01:01
  end line 1 2024-03-10 01:01
right:
  start 2024-03-10 00:59 up
  minute 2024-03-10 01:00
  begin line 1
  minute 2024-03-10 01:01
  end line 1 2024-03-10 01:00",
    },
    Meaning {
        name: "NotCatchable",
        short: "anacron wouldn't start this job now",
        text: "It isn't due that day, its delay isn't over, another job of the pass comes first
or still runs, or the minute is outside the catch-up hours.
anacrontab:
  1 0 cron.daily /usr/bin/daily
wrong:
  start 2024-03-10 00:59 down
  stamp cron.daily 2024-03-10
  up 2024-03-10 01:00
  catch cron.daily
right:
  start 2024-03-10 00:59 down
  stamp cron.daily 2024-03-09
  up 2024-03-10 01:00
  catch cron.daily",
    },
    Meaning {
        name: "OutOfRange",
        short: "the minute isn't from 1970-01-02 to 9999-12-31",
        text: "There is no minute after the last one of 9999. A script can't name one: there it
is a BadDate.",
    },
    Meaning {
        name: "HistoryFull",
        short: "the journal has no room for the event",
        text: "A journal has at most 4,194,304 events. 'replay' and 'judge' keep none; 'run'
ends with 'the history is full'.",
    },
];
