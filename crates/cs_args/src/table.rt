//! The subcommands and their arguments.
ghost use Rattle.std.specs.Prelude.{◌≡◌, map};
ghost use Rattle.cs_args.specs.CommandLine.{name_of, rules_of};
ghost use Rattle.cs_args.specs.Table.{rule_in};

use crate::table::Takes::{Flag, OptionalWord, Pair, Value, Values, Word, Words};
use crate::texts;

/// How an argument is given.
pub(crate) enum Takes {
    /// A required word.
    Word,
    /// An optional word.
    OptionalWord,
    /// Words, one at least.
    Words,
    /// `--NAME`.
    Flag,
    /// `--NAME VALUE`, and what the help calls the value.
    Value(&'static str),
    /// `--NAME VALUE`, once or more often, and what the help calls the value.
    Values(&'static str),
    /// `--NAME OLD NEW`.
    Pair,
}

/// An argument: its name, how it is given, and what the help says of it.
pub(crate) struct Argument(
    pub(crate) &'static str,
    pub(crate) Takes,
    pub(crate) &'static str,
);

const TABLE: Argument = Argument("TABLE", Word, texts::TABLE_HELP);

const DATE: Argument = Argument("DATE", Word, texts::DATE_HELP);

const DECLS: Argument = Argument("DECLS", Word, texts::DECLARATIONS_HELP);

const CERT: Argument = Argument("CERT", Word, texts::CERTIFICATE_HELP);

const STAMPS: Argument = Argument("STAMPS", Word, texts::DAEMON_STAMPS_HELP);

const ANACRONTAB: Argument = Argument("anacrontab", Value("FILE"), texts::ANACRONTAB_HELP);

const DECLARATIONS: Argument = Argument("declarations", Value("FILE"), texts::DECLARATIONS_HELP);

const FROM: Argument = Argument("from", Value("M"), texts::FROM_HELP);

const TO: Argument = Argument("to", Value("M"), texts::TO_HELP);

const FORMAT: Argument = Argument("format", Value("FORMAT"), texts::FORMAT_HELP);

const FOLDER: Argument = Argument("FOLDER", Words, texts::FOLDER_HELP);

const ONLY: Argument = Argument("only", Values("NAME"), texts::ONLY_HELP);

const EXCEPT: Argument = Argument("except", Values("NAME"), texts::EXCEPT_HELP);

const FAULTS_ONLY: Argument = Argument("faults-only", Flag, texts::FAULTS_ONLY_HELP);

static JUDGE: [Argument; 4] = [TABLE, DECLS, ANACRONTAB, FORMAT];

static CHECK: [Argument; 5] = [TABLE, DECLS, CERT, ANACRONTAB, FORMAT];

static JUDGE_ALL: [Argument; 2] = [FOLDER, FORMAT];

static LINT_ALL: [Argument; 5] = [FOLDER, ONLY, EXCEPT, FAULTS_ONLY, FORMAT];

static DIFF: [Argument; 7] = [
    Argument("OLD_TABLE", Word, texts::OLD_TABLE_HELP),
    Argument("OLD_DECLS", Word, texts::OLD_DECLS_HELP),
    Argument("NEW_TABLE", Word, texts::NEW_TABLE_HELP),
    Argument("NEW_DECLS", Word, texts::NEW_DECLS_HELP),
    Argument("anacrontab", Pair, texts::ANACRONTABS_HELP),
    Argument("since", Value("DATE"), texts::SINCE_HELP),
    Argument("format", Value("FORMAT"), texts::DIFF_FORMAT_HELP),
];

static NEXT: [Argument; 5] = [
    TABLE,
    ANACRONTAB,
    Argument("count", Value("N"), texts::COUNT_HELP),
    Argument("from", Value("DATE-TIME"), texts::NEXT_FROM_HELP),
    Argument("json", Flag, texts::NEXT_JSON_HELP),
];

static MAKE: [Argument; 4] = [
    TABLE,
    DECLS,
    ANACRONTAB,
    Argument("compact", Flag, texts::COMPACT_HELP),
];

static ADVISE: [Argument; 6] = [
    TABLE,
    DECLS,
    ANACRONTAB,
    Argument("within", Value("MINUTES"), texts::WITHIN_HELP),
    Argument("first", Value("N"), texts::FIRST_HELP),
    FORMAT,
];

static RUN: [Argument; 19] = [
    TABLE,
    DECLS,
    CERT,
    Argument("STAMPS", Word, texts::STAMPS_HELP),
    ANACRONTAB,
    Argument("minutes", Value("N"), texts::MINUTES_HELP),
    Argument("log", Value("FILE"), texts::RUN_LOG_HELP),
    Argument("output", Value("FOLDER"), texts::OUTPUT_HELP),
    Argument("keep", Value("N"), texts::KEEP_HELP),
    Argument("home", Flag, texts::HOME_HELP),
    Argument("enforce", Flag, texts::ENFORCE_HELP),
    Argument("on-overrun", Value("COMMAND"), texts::ON_OVERRUN_HELP),
    Argument("on-failure", Value("COMMAND"), texts::ON_FAILURE_HELP),
    Argument("on-limit", Value("COMMAND"), texts::ON_LIMIT_HELP),
    Argument("on-success", Value("COMMAND"), texts::ON_SUCCESS_HELP),
    Argument("on-recovered", Value("COMMAND"), texts::ON_RECOVERED_HELP),
    Argument("mail", Value("COMMAND"), texts::MAIL_HELP),
    Argument("last-accepted", Flag, texts::LAST_ACCEPTED_HELP),
    Argument("check-only", Flag, texts::CHECK_ONLY_HELP),
];

static STOP: [Argument; 2] = [STAMPS, Argument("now", Flag, texts::NOW_HELP)];

static RELOAD: [Argument; 2] = [STAMPS, Argument("drain", Flag, texts::DRAIN_HELP)];

static APPLY: [Argument; 5] = [TABLE, DECLS, CERT, STAMPS, ANACRONTAB];

static STATUS: [Argument; 3] = [
    STAMPS,
    Argument("json", Flag, texts::STATUS_JSON_HELP),
    Argument("metrics", Flag, texts::METRICS_HELP),
];

static GATHER: [Argument; 3] = [
    Argument("root", Value("DIR"), texts::ROOT_HELP),
    Argument("system", Values("FILE"), texts::SYSTEM_HELP),
    Argument("user", Values("FILE"), texts::USER_HELP),
];

static DRAFT: [Argument; 5] = [
    TABLE,
    ANACRONTAB,
    Argument("max", Value("N"), texts::DRAFT_MAX_HELP),
    Argument("update", Value("OLD"), texts::UPDATE_HELP),
    Argument("max-from", Value("FILE"), texts::MAX_FROM_HELP),
];

static LEARN: [Argument; 4] = [
    TABLE,
    Argument("LOG", Words, texts::LOG_HELP),
    ANACRONTAB,
    Argument("factor", Value("F"), texts::FACTOR_HELP),
];

static LINT: [Argument; 8] = [
    TABLE,
    Argument("DECLS", OptionalWord, texts::DECLARATIONS_HELP),
    ANACRONTAB,
    Argument("zone", Value("FILE"), texts::ZONE_HELP),
    ONLY,
    EXCEPT,
    FAULTS_ONLY,
    FORMAT,
];

static DAY: [Argument; 7] = [
    TABLE,
    DATE,
    Argument("MAX", OptionalWord, texts::MAX_HELP),
    ANACRONTAB,
    FROM,
    TO,
    Argument("zone", Value("RULE"), texts::RULE_HELP),
];

static CHART: [Argument; 8] = [
    TABLE,
    DATE,
    Argument("MAX", OptionalWord, texts::CHART_MAX_HELP),
    ANACRONTAB,
    FROM,
    TO,
    Argument("days", Value("N"), texts::DAYS_HELP),
    DECLARATIONS,
];

static REPLAY: [Argument; 8] = [
    TABLE,
    Argument("SCRIPT", Word, texts::SCRIPT_HELP),
    Argument("max", Value("N"), texts::REPLAY_MAX_HELP),
    ANACRONTAB,
    DECLARATIONS,
    Argument("judge", Flag, texts::JUDGE_HELP),
    Argument("log", Flag, texts::REPLAY_LOG_HELP),
    Argument("script", Flag, texts::SHOW_SCRIPT_HELP),
];

static EXPLAIN: [Argument; 1] = [Argument("NAME", OptionalWord, texts::NAME_HELP)];

static HELP: [Argument; 1] = [Argument("COMMAND", OptionalWord, texts::COMMAND_HELP)];

#[derive(Clone, Copy)]
pub(crate) enum Subcommand {
    Judge,
    Check,
    Make,
    Advise,
    Room,
    Run,
    Stop,
    Reload,
    Apply,
    Status,
    Gather,
    Draft,
    Learn,
    Lint,
    Day,
    Chart,
    Replay,
    Explain,
    JudgeAll,
    LintAll,
    Diff,
    Next,
    Help,
}

/// All subcommands, in the order of the help.
pub(crate) static SUBCOMMANDS: [Subcommand; 23] = [
    Subcommand::Judge,
    Subcommand::Check,
    Subcommand::Make,
    Subcommand::Advise,
    Subcommand::Room,
    Subcommand::Run,
    Subcommand::Stop,
    Subcommand::Reload,
    Subcommand::Apply,
    Subcommand::Status,
    Subcommand::Gather,
    Subcommand::Draft,
    Subcommand::Learn,
    Subcommand::Lint,
    Subcommand::Day,
    Subcommand::Chart,
    Subcommand::Replay,
    Subcommand::Explain,
    Subcommand::JudgeAll,
    Subcommand::LintAll,
    Subcommand::Diff,
    Subcommand::Next,
    Subcommand::Help,
];

impl Subcommand {
    /// Its name, what it does, and what its help says below its arguments.
    pub(crate) fn texts(self) -> (&'static str, &'static str, &'static str)
        ensures { result.0.now ≡ name_of self }
    {
        match self {
            Subcommand::Judge => ("judge", texts::JUDGE_ABOUT, texts::JUDGE_EXAMPLE),
            Subcommand::Check => ("check", texts::CHECK_ABOUT, texts::CHECK_EXAMPLE),
            Subcommand::Make => ("make", texts::MAKE_ABOUT, texts::MAKE_EXAMPLE),
            Subcommand::Advise => ("advise", texts::ADVISE_ABOUT, texts::ADVISE_EXAMPLE),
            Subcommand::Room => ("room", texts::ROOM_ABOUT, texts::ROOM_EXAMPLE),
            Subcommand::Run => ("run", texts::RUN_ABOUT, texts::RUN_EXAMPLE),
            Subcommand::Stop => ("stop", texts::STOP_ABOUT, texts::STOP_EXAMPLE),
            Subcommand::Reload => ("reload", texts::RELOAD_ABOUT, texts::RELOAD_EXAMPLE),
            Subcommand::Apply => ("apply", texts::APPLY_ABOUT, texts::APPLY_EXAMPLE),
            Subcommand::Status => ("status", texts::STATUS_ABOUT, texts::STATUS_EXAMPLE),
            Subcommand::Gather => ("gather", texts::GATHER_ABOUT, texts::GATHER_EXAMPLE),
            Subcommand::Draft => ("draft", texts::DRAFT_ABOUT, texts::DRAFT_EXAMPLE),
            Subcommand::Learn => ("learn", texts::LEARN_ABOUT, texts::LEARN_EXAMPLE),
            Subcommand::Lint => ("lint", texts::LINT_ABOUT, texts::LINT_EXAMPLE),
            Subcommand::Day => ("day", texts::DAY_ABOUT, texts::DAY_EXAMPLE),
            Subcommand::Chart => ("chart", texts::CHART_ABOUT, texts::CHART_EXAMPLE),
            Subcommand::Replay => ("replay", texts::REPLAY_ABOUT, texts::REPLAY_EXAMPLE),
            Subcommand::Explain => ("explain", texts::EXPLAIN_ABOUT, texts::EXPLAIN_EXAMPLE),
            Subcommand::JudgeAll => {
                (
                    "judge --all",
                    texts::JUDGE_ALL_ABOUT,
                    texts::JUDGE_ALL_EXAMPLE,
                )
            }
            Subcommand::LintAll => ("lint --all", texts::LINT_ALL_ABOUT, texts::LINT_ALL_EXAMPLE),
            Subcommand::Diff => ("diff", texts::DIFF_ABOUT, texts::DIFF_EXAMPLE),
            Subcommand::Next => ("next", texts::NEXT_ABOUT, texts::NEXT_EXAMPLE),
            Subcommand::Help => ("help", texts::HELP_ABOUT, ""),
        }
    }

    /// Its arguments, in the order of its help.
    pub(crate) fn arguments(self) -> &'static [Argument]
        ensures { map rule_in result.now ≡ rules_of self }
    {
        match self {
            Subcommand::Judge | Subcommand::Room => JUDGE.as_slice(),
            Subcommand::Check => CHECK.as_slice(),
            Subcommand::Make => MAKE.as_slice(),
            Subcommand::Advise => ADVISE.as_slice(),
            Subcommand::Run => RUN.as_slice(),
            Subcommand::Stop => STOP.as_slice(),
            Subcommand::Reload => RELOAD.as_slice(),
            Subcommand::Apply => APPLY.as_slice(),
            Subcommand::Status => STATUS.as_slice(),
            Subcommand::Gather => GATHER.as_slice(),
            Subcommand::Draft => DRAFT.as_slice(),
            Subcommand::Learn => LEARN.as_slice(),
            Subcommand::Lint => LINT.as_slice(),
            Subcommand::Day => DAY.as_slice(),
            Subcommand::Chart => CHART.as_slice(),
            Subcommand::Replay => REPLAY.as_slice(),
            Subcommand::Explain => EXPLAIN.as_slice(),
            Subcommand::JudgeAll => JUDGE_ALL.as_slice(),
            Subcommand::LintAll => LINT_ALL.as_slice(),
            Subcommand::Diff => DIFF.as_slice(),
            Subcommand::Next => NEXT.as_slice(),
            Subcommand::Help => HELP.as_slice(),
        }
    }
}
