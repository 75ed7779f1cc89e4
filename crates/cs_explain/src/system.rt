//! The faults of a system table, besides those of a crontab (`crontab(5)`).
use crate::meaning::Meaning;

/// In the order of their numbers.
pub(crate) static MEANINGS: [Meaning; 1] = [Meaning {
    name: "BadUser",
    short: "the word where the user belongs holds /, =, a quote or a control byte",
    text: "In /etc/crontab and the files of /etc/cron.d a user stands before each command.
Here it is probably missing, and the command is read as one. Give a user's
table, which has none, by --user.
wrong:
  30 1 * * * /usr/bin/backup --full
right:
  30 1 * * * root /usr/bin/backup --full",
}];
