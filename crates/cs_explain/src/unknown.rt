//! The reasons of the answer `unknown` of `judge` and `make`.
use crate::meaning::Meaning;

/// In the order of their numbers.
pub(crate) static MEANINGS: [Meaning; 7] = [
    Meaning {
        name: "NoReach",
        short: "a job waits for a lock that may never become free for long",
        text: r#"The runs of its group take nearly all the time there is. Shorten longest times,
take jobs out of the group, or use mode try.
crontab:
  0 * * * * /usr/bin/poll
wrong:
  {"capacity": 1, "groups": [{"name": "net", "exclusive": true}],
   "cron": [{"line": 1, "max": 90, "group": "net", "mode": "wait"}]}
right:
  {"capacity": 1, "groups": [{"name": "net", "exclusive": true}],
   "cron": [{"line": 1, "max": 50, "group": "net", "mode": "wait"}]}"#,
    },
    Meaning {
        name: "NoScript",
        short: "a rule is broken, but in no history that was found",
        text: r#"The second line says which rule. Give what it names more time between the two,
less weight, or another group.
declarations:
  {"capacity": 3, "groups": [{"name": "disk", "exclusive": true}],
   "cron": [{"line": 1, "max": 20, "group": "disk", "mode": "wait"},
            {"line": 2, "max": 30, "group": "disk", "mode": "wait"},
            {"line": 3, "max": 10, "group": "disk"}]}
wrong crontab:
  0 0 * * * /usr/bin/backup
  5 0 * * * /usr/bin/index
  49 0 * * * /usr/bin/report
right crontab:
  0 0 * * * /usr/bin/backup
  5 0 * * * /usr/bin/index
  50 0 * * * /usr/bin/report"#,
    },
    Meaning {
        name: "TooManyClasses",
        short: "there would be more than 512 classes",
        text: "This shouldn't occur: version 3 has room for a class for each kind of day.",
    },
    Meaning {
        name: "LeafTooLong",
        short: "the certificate's text would be over 16 MiB",
        text: "Only 'make' could print this, and it shouldn't occur: no text of version 3 is
that long.",
    },
    Meaning {
        name: "TooDeep",
        short: "a tree would be deeper than 24",
        text: "This shouldn't occur: the certificate is then of version 3, whose day tree is
never so deep.",
    },
    Meaning {
        name: "NotChecked",
        short: "what was made wasn't confirmed",
        text: "This is a defect of cronsafe that affects no other answer. Report it, with the
tables and declarations.",
    },
    Meaning {
        name: "NoMemory",
        short: "memory ran out while the plan was judged",
        text: "Give the call more memory, or judge the plan on a machine that has more.",
    },
];
