//! The faults of a certificate's text.
use crate::meaning::Meaning;

/// In the order of their numbers.
pub(crate) static MEANINGS: [Meaning; 10] = [
    Meaning {
        name: "TooLong",
        short: "the text is over 16,777,216 bytes",
        text: "Make a new one with 'cronsafe make --compact', which states only what the tables
and declarations don't.",
    },
    Meaning {
        name: "NotJson",
        short: "it is no JSON",
        text: r#"Often the end of the file is missing, or 'make' printed a verdict in place of a
certificate. Make a new one.
wrong:
  {"version": 3, "reach": [], "kinds": {"class": 0}, "classes": [{"carry": []}]
right:
  {"version": 3, "reach": [], "kinds": {"class": 0}, "classes": [{"carry": []}]}"#,
    },
    Meaning {
        name: "BadVersion",
        short: "version is a whole number other than 1, 2 and 3",
        text: r#"wrong:
  {"version": 4, "reach": [], "kinds": {"class": 0}, "classes": [{"carry": []}]}
right:
  {"version": 3, "reach": [], "kinds": {"class": 0}, "classes": [{"carry": []}]}"#,
    },
    Meaning {
        name: "BadShape",
        short: "a member is unknown or absent, or has no value of its kind",
        text: r#"Each version has its own members, and requires all of them. Numbers are whole.
wrong:
  {"version": 3, "reach": [], "kinds": {"class": 0}, "classes": [{"due": []}]}
right:
  {"version": 3, "reach": [], "kinds": {"class": 0}, "classes": [{"carry": []}]}"#,
    },
    Meaning {
        name: "TooDeep",
        short: "a tree is deeper than 24",
        text: "No certificate that 'cronsafe make' prints is so deep. Make a new one.",
    },
    Meaning {
        name: "BadSplit",
        short: "a split of a tree isn't possible where it stands",
        text: r#"The values in a split of days rise, are still possible there (months are 1 to
12), and aren't all that are. The minute of a split is inside the tree's range.
wrong:
  {"version": 3, "reach": [], "classes": [{"carry": []}], "kinds":
   {"split": "month", "in": [13], "yes": {"class": 0}, "no": {"class": 0}}}
right:
  {"version": 3, "reach": [], "classes": [{"carry": []}], "kinds":
   {"split": "month", "in": [12], "yes": {"class": 0}, "no": {"class": 0}}}"#,
    },
    Meaning {
        name: "BadClass",
        short: "a class is named that isn't there, or stretches don't rise",
        text: r#"Classes are numbered from 0. Stretches rise by length, then in order, each once.
wrong:
  {"version": 3, "reach": [], "kinds": {"class": 1}, "classes": [{"carry": []}]}
right:
  {"version": 3, "reach": [], "kinds": {"class": 0}, "classes": [{"carry": []}]}"#,
    },
    Meaning {
        name: "BadEntry",
        short: "a list doesn't rise, or a number in one is out of range",
        text: r#"Jobs are below 320, groups below 64, minutes of a day 0 to 1439, reaches 1 to
4320 (1 to 1440 in version 1). Only the entries of a leaf may be in any order.
wrong:
  {"version": 3, "reach": [], "kinds": {"class": 0},
   "classes": [{"carry": [[1, 5], [0, 5]]}]}
right:
  {"version": 3, "reach": [], "kinds": {"class": 0},
   "classes": [{"carry": [[0, 5], [1, 5]]}]}"#,
    },
    Meaning {
        name: "TooManyClasses",
        short: "there are more than 512 classes, in version 3 than 2,562",
        text: "If the days need more than 512 classes, 'cronsafe make' writes version 3.",
    },
    Meaning {
        name: "LeafTooLong",
        short: "a leaf has more than 4,096 entries",
        text: "Split the leaf, or make a new certificate with --compact, which has no leaves.",
    },
];
