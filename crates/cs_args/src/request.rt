ghost use Rattle.std.specs.Prelude.{◌≡◌};
ghost use Rattle.cs_args.specs.declared.request.UsageFault.TheVariants.{OutOfMemory as no_memory};

use std::alloc::{AllocError, AllocFailed};

/// What `day` is asked.
#[derive(Clone, Copy)]
pub struct DayWords<'a> {
    /// The path of a crontab.
    pub table: &'a str,
    /// The text of a date.
    pub date: &'a str,
    /// The longest time of each job, in minutes.
    pub max: u64,
    /// The path of an anacrontab.
    pub anacrontab: Option<&'a str>,
    /// The first minute of the day at which an anacron job may be started.
    pub from: u64,
    /// The first minute of the day after the catch-up hours.
    pub to: u64,
}

/// What `day --zone` is asked.
#[derive(Clone, Copy)]
pub struct WallWords<'a> {
    /// What `day` is asked, of a date of the zone; no anacrontab is given.
    pub day: DayWords<'a>,
    /// The text of a rule of a time zone, as POSIX has it in `TZ`.
    pub rule: &'a str,
}

/// What `replay` is asked.
#[derive(Clone, Copy)]
pub struct ReplayWords<'a> {
    /// The path of a crontab.
    pub table: &'a str,
    /// The path of a script, or of a log.
    pub script: &'a str,
    /// The longest time of each job, in minutes, where nothing is declared.
    pub max: u64,
    /// The path of an anacrontab.
    pub anacrontab: Option<&'a str>,
    /// The path of declarations.
    pub declarations: Option<&'a str>,
    /// Whether the answer says what the script breaks.
    pub judge: bool,
    /// Whether the script is the one that a log of `run` gives.
    pub log: bool,
    /// Whether the script that the log gives is shown, and not replayed.
    pub show_script: bool,
}

/// The form in which findings are printed.
#[derive(Clone, Copy, PartialEq, Eq)]
pub enum Format {
    /// Lines for people.
    Text,
    /// A JSON object, of which docs/findings.schema.json is the schema.
    Json,
    /// SARIF 2.1.0.
    Sarif,
    /// Lines `::error file=FILE,line=LINE,col=COLUMN::MESSAGE`, as GitHub's workflows take them.
    Github,
}

/// What `check` is asked.
#[derive(Clone, Copy)]
pub struct CheckWords<'a> {
    /// The path of a crontab.
    pub table: &'a str,
    /// The path of declarations.
    pub declarations: &'a str,
    /// The path of a certificate.
    pub certificate: &'a str,
    /// The path of an anacrontab.
    pub anacrontab: Option<&'a str>,
    /// The form in which the refusal is printed.
    pub format: Format,
}

/// What `run` is asked.
#[derive(Clone, Copy)]
pub struct RunWords<'a> {
    /// The paths that `check` is asked with.
    pub check: CheckWords<'a>,
    /// The path of a folder of stamps.
    pub stamps: &'a str,
    /// After how many minutes the clock stops; never if there is no number.
    pub minutes: Option<u64>,
    /// The path of a file to whose end the log goes, with times, or `-` for standard output. If
    /// none, it goes to standard output, without times.
    pub log: Option<&'a str>,
    /// The path of a folder in which each run gets a file for its output. If none, output goes to
    /// the daemon's own streams.
    pub output: Option<&'a str>,
    /// How many files of each job are kept there, at least 1; by default 30.
    pub keep: Option<u64>,
    /// Whether commands run with HOME, LOGNAME and USER of the user that cronsafe runs as, in that
    /// user's home folder.
    pub home: bool,
    /// Whether runs are ended before their longest time is over.
    pub enforce: bool,
    /// The shell command that is started when a run passes its longest time.
    pub on_overrun: Option<&'a str>,
    /// The shell command that is started when a run can't be started, or doesn't end with status 0.
    pub on_failure: Option<&'a str>,
    /// The shell command that is started when `enforce` ended a run.
    pub on_limit: Option<&'a str>,
    /// The shell command that is started when a run ended with status 0.
    pub on_success: Option<&'a str>,
    /// The shell command that is started when a run ended with status 0 and the one of its job
    /// before it had failed.
    pub on_recovered: Option<&'a str>,
    /// The shell command that gets the output of each run that wrote something.
    pub mail: Option<&'a str>,
    /// Whether the files that a daemon of the folder accepted last are run if these are refused.
    pub last_accepted: bool,
    /// Whether nothing is run, but all is done that comes before that.
    pub check_only: bool,
}

/// What `stop` is asked.
#[derive(Clone, Copy)]
pub struct StopWords<'a> {
    /// The path of the folder of stamps that the daemon uses.
    pub stamps: &'a str,
    /// Whether the call doesn't wait for the daemon's end.
    pub now: bool,
}

/// What `reload` is asked.
#[derive(Clone, Copy)]
pub struct ReloadWords<'a> {
    /// The path of the folder of stamps that the daemon uses.
    pub stamps: &'a str,
    /// Whether the daemon starts nothing more by its old plan.
    pub drain: bool,
}

/// What `apply` is asked.
#[derive(Clone, Copy)]
pub struct ApplyWords<'a> {
    /// The paths that `judge` is asked with.
    pub judge: JudgeWords<'a>,
    /// The path at which the certificate is put.
    pub certificate: &'a str,
    /// The path of the folder of stamps that the daemon uses.
    pub stamps: &'a str,
}

/// What `status` is asked.
#[derive(Clone, Copy)]
pub struct StatusWords<'a> {
    /// The path of the folder of stamps that the daemon uses.
    pub stamps: &'a str,
    /// Whether the state is shown as JSON, and not for people.
    pub json: bool,
    /// Whether it is shown as metrics of Prometheus.
    pub metrics: bool,
}

/// What `judge` is asked.
#[derive(Clone, Copy)]
pub struct JudgeWords<'a> {
    /// The path of a crontab.
    pub table: &'a str,
    /// The path of declarations.
    pub declarations: &'a str,
    /// The path of an anacrontab.
    pub anacrontab: Option<&'a str>,
    /// The form in which the answer is printed.
    pub format: Format,
}

/// What `judge --all` and `lint --all` are asked.
#[derive(Drop)]
pub struct AllWords<'a> {
    /// The paths of folders, in order.
    pub folders: Vec<&'a str>,
    /// The names of the odd findings to show; all if there are none.
    pub only: Vec<&'a str>,
    /// The names of the odd findings not to show.
    pub except: Vec<&'a str>,
    /// Whether only faults are shown, and nothing that is odd.
    pub faults_only: bool,
    /// The form in which findings are printed.
    pub format: Format,
}

/// What `diff` is asked.
#[derive(Clone, Copy)]
pub struct DiffWords<'a> {
    /// The paths of the tables and declarations before.
    pub old: JudgeWords<'a>,
    /// The paths of the tables and declarations after.
    pub new: JudgeWords<'a>,
    /// The text of the first day on which jobs may meet; today if there is none.
    pub since: Option<&'a str>,
    /// Whether the answer is Markdown, and not lines for people.
    pub markdown: bool,
}

/// What `next` is asked.
#[derive(Clone, Copy)]
pub struct NextWords<'a> {
    /// The path of a crontab.
    pub table: &'a str,
    /// The path of an anacrontab.
    pub anacrontab: Option<&'a str>,
    /// How many starts are shown, from 1 to 10,000.
    pub count: u64,
    /// The text of the minute from which starts are counted; the present one if there is none.
    pub from: Option<&'a str>,
    /// Whether the starts are shown as JSON, and not for people.
    pub json: bool,
}

/// What `make` is asked.
#[derive(Clone, Copy)]
pub struct MakeWords<'a> {
    /// The paths that `judge` is asked with.
    pub judge: JudgeWords<'a>,
    /// Whether the certificate says only what the tables and declarations don't.
    pub compact: bool,
}

/// What `advise` is asked.
#[derive(Clone, Copy)]
pub struct AdviseWords<'a> {
    /// The paths that `judge` is asked with.
    pub judge: JudgeWords<'a>,
    /// By how many minutes a job may be moved at most, from 1 to 1,439.
    pub within: u64,
    /// How many changes are enough, at least 1; by default all.
    pub first: Option<u64>,
}

/// What `gather` is asked.
#[derive(Drop)]
pub struct GatherWords<'a> {
    /// The path of a machine's root folder.
    pub root: Option<&'a str>,
    /// The paths of crontabs whose lines name a user, in order.
    pub system: Vec<&'a str>,
    /// The paths of users' crontabs, in order.
    pub user: Vec<&'a str>,
}

/// What `draft` is asked.
#[derive(Clone, Copy)]
pub struct DraftWords<'a> {
    /// The path of a crontab.
    pub table: &'a str,
    /// The longest time of each new job, in minutes.
    pub max: u64,
    /// The path of an anacrontab.
    pub anacrontab: Option<&'a str>,
    /// The path of the declarations to update.
    pub update: Option<&'a str>,
    /// The path of a text that gives the longest times of jobs.
    pub maxes: Option<&'a str>,
}

/// What `learn` is asked.
#[derive(Drop)]
pub struct LearnWords<'a> {
    /// The path of a crontab.
    pub table: &'a str,
    /// The paths of logs, in order.
    pub logs: Vec<&'a str>,
    /// The path of an anacrontab.
    pub anacrontab: Option<&'a str>,
    /// How many times the longest run a longest time is, as it is written.
    pub factor: &'a str,
}

/// What `lint` is asked.
#[derive(Drop)]
pub struct LintWords<'a> {
    /// The path of a crontab.
    pub table: &'a str,
    /// The path of declarations.
    pub declarations: Option<&'a str>,
    /// The path of an anacrontab.
    pub anacrontab: Option<&'a str>,
    /// The path of a file of a time zone.
    pub zone: Option<&'a str>,
    /// The names of the findings to show; all if there are none.
    pub only: Vec<&'a str>,
    /// The names of the findings not to show.
    pub except: Vec<&'a str>,
    /// Whether only faults are shown, and nothing that is odd.
    pub faults_only: bool,
    /// The form in which findings are printed.
    pub format: Format,
}

/// What `chart` is asked.
#[derive(Clone, Copy)]
pub struct ChartWords<'a> {
    /// What `day` is asked, of the first day.
    pub day: DayWords<'a>,
    /// For how many days, from 1 to 7.
    pub days: u8,
    /// The path of declarations.
    pub declarations: Option<&'a str>,
}

/// What a call asks.
#[derive(Drop)]
pub enum Request<'a> {
    /// A day of the tables.
    Day(DayWords<'a>),
    /// A day of the tables by a clock with summer time.
    Wall(WallWords<'a>),
    /// The replay of a script.
    Replay(ReplayWords<'a>),
    /// The check of a certificate.
    Check(CheckWords<'a>),
    /// A run of checked tables on the machine's clock.
    Run(RunWords<'a>),
    /// The end of a daemon.
    Stop(StopWords<'a>),
    /// That a daemon reads its files again.
    Reload(ReloadWords<'a>),
    /// That a daemon goes on with edited files, if they are safe.
    Apply(ApplyWords<'a>),
    /// What a daemon does.
    Status(StatusWords<'a>),
    /// Whether a plan is safe, or a history that breaks it.
    Judge(JudgeWords<'a>),
    /// A certificate of a plan, or a history that breaks it.
    Make(MakeWords<'a>),
    /// Single changes that make an unsafe plan safe.
    Advise(AdviseWords<'a>),
    /// How long each job may take while the plan stays safe.
    Room(JudgeWords<'a>),
    /// Many crontabs as one.
    Gather(GatherWords<'a>),
    /// Declarations to begin from.
    Draft(DraftWords<'a>),
    /// Declarations whose longest times are learned from logs.
    Learn(LearnWords<'a>),
    /// All that is wrong or odd in files.
    Lint(LintWords<'a>),
    /// A picture of some days of the tables.
    Chart(ChartWords<'a>),
    /// What the name of a fault or of a refusal means, or which names there are.
    Explain(Option<&'a str>),
    /// What an edit changes.
    Diff(DiffWords<'a>),
    /// The next starts of all jobs.
    Next(NextWords<'a>),
    /// Whether each table below folders is safe.
    JudgeAll(AllWords<'a>),
    /// All that is wrong or odd in the tables below folders.
    LintAll(AllWords<'a>),
}

/// Why the words of a call make no request.
#[derive(Drop)]
pub enum UsageFault {
    /// Help is asked for: its text.
    Help(String),
    /// The version is asked for.
    Version,
    /// The words aren't a call of the program, for this reason.
    NoCall(String),
    /// Memory ran out.
    OutOfMemory,
}

impl From<AllocError> for UsageFault {
    ghost from_gives = { λ _ e. e ≡ no_memory };

    fn from(_error: AllocError) -> UsageFault {
        UsageFault::OutOfMemory
    }
}

impl<T: Drop> From<AllocFailed<T>> for UsageFault {
    ghost from_gives = { λ _ e. e ≡ no_memory };

    fn from(_error: AllocFailed<T>) -> UsageFault {
        UsageFault::OutOfMemory
    }
}
